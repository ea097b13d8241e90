ghost use Rattle.std.specs.Prelude.{◌≡◌, ℕ, ◌+◌, ◌-◌, ◌^◌, ◌<◌, ◌≤◌, ◌++◌, [], ◌∷◌, true, false, length, Some, OnOk};
ghost use Rattle.sr_core.specs.HeldPipe.{room_after};
ghost use Rattle.sr_law.specs.Ticks.{start_of};
ghost use Rattle.sr_law.specs.declared.line.Line.{Line as ALine};
ghost use Rattle.sr_machine.specs.Pipe.{entered, fresh_pipe, is_idle};
ghost use Rattle.sr_machine.specs.declared.name.Name.{Name as AName};
ghost use Rattle.sr_pipe.specs.Handling.{HandledOn};
ghost use Rattle.sr_pipe.specs.Known.{FitsThen, IsFor, Leads, known};
ghost use Rattle.sr_pipe.specs.Progress.{IsLast, TellsProgress};

use crate::Progress;
use crate::deciding::decide;
use crate::passing::{begin, leave, tell};
use sr_base::{Layout, Packet};
use sr_core::{PipeMachine, packet_line};
use sr_io::Gate;
use sr_law::Line;
use sr_machine::{Board, packets_end, perform};
use std::alloc::{AllocError, Global};
use std::marker::Model;

/// A pipe: packets enter one after the other, and each makes its steps on the pipe's board.
#[derive(Drop)]
pub struct Pipe {
    machine: PipeMachine,
}

impl Model for Pipe {
    ghost use Rattle.sr_core.specs.HeldPipe.{HeldPipe};
    ghost use Rattle.sr_pipe.specs.Progress.{HasLine};

    ghost Value = { HeldPipe };

    ghost view = { λ p. p.machine };

    ghost invariant = { λ p. HasLine p.machine.view.stage p.machine.view.lines };
}

impl Pipe {
    /// A pipe of this number that has done nothing yet. It takes no memory.
    pub fn new(alloc: Global, number: u8, layout: &Layout) -> Pipe
        requires { number < layout.now.shape.pipes }
        ensures layout { result.layout ≡ layout.now }
        ensures view { result.view ≡ fresh_pipe number }
    {
        Pipe {
            machine: PipeMachine::new(alloc, number, layout),
        }
    }

    /// Makes room for at least so many more lines.
    pub fn reserve(&mut self, lines: usize) -> Result<(), AllocError>
        ensures layout { self.new.layout ≡ self.old.layout }
        ensures view { self.new.view ≡ self.old.view }
        ensures room { OnOk result (lines ≤ self.new.room) }
        ensures kept { self.old.room ≤ self.new.room }
    {
        self.machine.reserve(lines)
    }

    /// Its lines so far.
    pub fn lines(&self) -> &[Line]
        ensures { result.now ≡ self.now.view.lines }
    {
        self.machine.lines()
    }

    /// Its number.
    pub fn number(&self) -> u8
        ensures { result ≡ self.now.view.number }
    {
        self.machine.number()
    }

    /// Whether it has no packet in hand.
    pub fn is_idle(&self) -> bool
        ensures { result ≡ is_idle self.now.view.stage }
    {
        self.machine.is_idle()
    }

    /// A packet enters. The board is told, and makes no step.
    pub fn enter<B: Board>(&mut self, board: &mut B, packet: Packet)
        requires idle { is_idle self.old.view.stage ≡ true }
        requires vip { packet.key.vip < self.old.layout.vips }
        requires lines { length self.old.view.lines + 1 < 2 ^ 32 }
        requires room { 0 < self.old.room }
        requires board { IsFor (B.fits board.old) (B.beside board.old) self.old }
        ensures layout { self.new.layout ≡ self.old.layout }
        ensures view { entered self.old.layout packet self.old.view ≡ Some self.new.view }
        ensures room { self.new.room ≡ self.old.room }
        ensures board { IsFor (B.fits board.new) (B.beside board.new) self.new }
        ensures fits { FitsThen self.old.layout (known (B.fits board.old) (B.shows board.old) (B.beside board.old) (B.rests board.old)) self.old.view
            (known (B.fits board.new) (B.shows board.new) (B.beside board.new) (B.rests board.new)) self.new.view }
        ensures words { (words : AName → ℕ) → B.shows board.old words → B.shows board.new words }
        ensures beside { B.beside board.new ≡ B.beside board.old }
        ensures rest { B.rests board.old → B.rests board.new }
    {
        tell(board, &self.machine, &packet);
        self.machine.enter(packet);
    }

    /// Makes the next atomic step of the packet in hand.
    pub fn step<B: Board>(&mut self, board: &mut B) -> Progress
        requires busy { is_idle self.old.view.stage ≡ false }
        requires board { IsFor (B.fits board.old) (B.beside board.old) self.old }
        ensures layout { self.new.layout ≡ self.old.layout }
        ensures progress { TellsProgress result self.new.view }
        ensures room { self.new.room ≡ room_after self.old.view.stage self.old.room }
        ensures step { (answer : ℕ) × Leads self.old.layout (known (B.fits board.old) (B.shows board.old) (B.beside board.old) (B.rests board.old)) self.old.view (answer ∷ [])
            (known (B.fits board.new) (B.shows board.new) (B.beside board.new) (B.rests board.new)) self.new.view }
        ensures board { IsFor (B.fits board.new) (B.beside board.new) self.new }
        ensures beside { B.beside board.new ≡ B.beside board.old }
        ensures rest { B.rests board.old → B.rests board.new }
    {
        let Some(op) = self.machine.next() else {
            return Progress::Running;
        };
        let answer = perform(board, op);
        self.machine.after(answer);
        if self.machine.is_idle() {
            Progress::Done(last_of(self.machine.lines()))
        } else {
            Progress::Running
        }
    }

    /// A packet enters and makes its steps, to the last one, 25 at most. Once its note is up it passes the gate. It waits for nobody
    /// and takes no memory.
    pub fn handle<B: Board, G: Gate>(&mut self, board: &mut B, packet: Packet, gate: &G) -> Line
        requires idle { is_idle self.old.view.stage ≡ true }
        requires vip { packet.key.vip < self.old.layout.vips }
        requires lines { length self.old.view.lines + 1 < 2 ^ 32 }
        requires room { 0 < self.old.room }
        requires board { IsFor (B.fits board.old) (B.beside board.old) self.old }
        ensures layout { self.new.layout ≡ self.old.layout }
        ensures room { self.new.room ≡ self.old.room - 1 }
        ensures handled { HandledOn self.old.layout packet (known (B.fits board.old) (B.shows board.old) (B.beside board.old) (B.rests board.old)) self.old.view
            (known (B.fits board.new) (B.shows board.new) (B.beside board.new) (B.rests board.new)) self.new.view result }
        ensures idle { is_idle self.new.view.stage ≡ true }
        ensures line { self.new.view.lines ≡ self.old.view.lines ++ result ∷ [] }
        ensures gate { G.passed gate.now self.old.view.number (start_of result) }
        ensures board { IsFor (B.fits board.new) (B.beside board.new) self.new }
        ensures beside { B.beside board.new ≡ B.beside board.old }
        ensures rest { B.rests board.old → B.rests board.new }
    {
        handle_on(board, &mut self.machine, packet, gate)
    }
}

// A packet's steps at one go, on this pipe's machine.
fn handle_on<B: Board, G: Gate>(
    board: &mut B,
    pipe: &mut PipeMachine,
    packet: Packet,
    gate: &G,
) -> Line
    requires idle { is_idle pipe.old.view.stage ≡ true }
    requires vip { packet.key.vip < pipe.old.layout.vips }
    requires lines { length pipe.old.view.lines + 1 < 2 ^ 32 }
    requires room { 0 < pipe.old.room }
    requires board { IsFor (B.fits board.old) (B.beside board.old) pipe.old }
    ensures layout { pipe.new.layout ≡ pipe.old.layout }
    ensures room { pipe.new.room ≡ pipe.old.room - 1 }
    ensures handled { HandledOn pipe.old.layout packet (known (B.fits board.old) (B.shows board.old) (B.beside board.old) (B.rests board.old)) pipe.old.view
        (known (B.fits board.new) (B.shows board.new) (B.beside board.new) (B.rests board.new)) pipe.new.view result }
    ensures gate { G.passed gate.now pipe.old.view.number (start_of result) }
    ensures board { IsFor (B.fits board.new) (B.beside board.new) pipe.new }
    ensures beside { B.beside board.new ≡ B.beside board.old }
    ensures rest { B.rests board.old → B.rests board.new }
{
    packets_end();
    let number = pipe.number();
    tell(board, pipe, &packet);
    let flight = begin(board, pipe, &packet, gate);
    let decided = decide(board, pipe, &flight);
    let out = leave(board, pipe, &flight, &decided);
    pipe.handled(decided.stored, &flight, &decided.verdict, out);
    packet_line(number, &flight, &decided.verdict, out)
}

// The last of these lines.
fn last_of(lines: &[Line]) -> Line
    requires { (line : ALine) × IsLast line lines.now }
    ensures { IsLast result lines.now }
{
    lines[lines.len() - 1]
}
