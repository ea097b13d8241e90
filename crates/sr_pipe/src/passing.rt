//! A packet's first steps and its last ones: its ticks and its note.

ghost use Rattle.std.specs.Prelude.{◌≡◌, ℕ, ◌+◌, ◌^◌, ◌<◌, true, length};
ghost use Rattle.sr_core.specs.Tracks.{FitsFlight};
ghost use Rattle.sr_machine.specs.Pipe.{is_idle, packet_line};
ghost use Rattle.sr_machine.specs.Stages.{looking};
ghost use Rattle.sr_machine.specs.declared.leg.Last.TheVariants.{Out as AnOut};
ghost use Rattle.sr_machine.specs.declared.leg.Leg.TheVariants.{Judged};
ghost use Rattle.sr_machine.specs.declared.name.Name.{Name as AName};
ghost use Rattle.sr_machine.specs.declared.stage.Stage.TheVariants.{Enter, Fly, Note as ANote, Vip as AVip};
ghost use Rattle.sr_pipe.specs.Handling.{with_packet};
ghost use Rattle.sr_pipe.specs.Known.{FitsThen, Goes, IsFor, at_stage, known, left, reported, staged};
ghost use Rattle.sr_pipe.specs.Places.{places_from};

use crate::Decided;
use sr_base::{Packet, WordName};
use sr_core::PipeMachine;
use sr_core::reads::read_vip;
use sr_io::Gate;
use sr_machine::{Board, Flight};

// Its board is told that it enters.
pub(crate) fn tell<B: Board>(board: &mut B, pipe: &PipeMachine, packet: &Packet)
    requires idle { is_idle pipe.now.view.stage ≡ true }
    requires vip { packet.now.key.vip < pipe.now.layout.vips }
    requires lines { length pipe.now.view.lines + 1 < 2 ^ 32 }
    requires board { IsFor (B.fits board.old) (B.beside board.old) pipe.now }
    ensures fits { FitsThen pipe.now.layout (known (B.fits board.old) (B.shows board.old) (B.beside board.old) (B.rests board.old)) pipe.now.view
        (known (B.fits board.new) (B.shows board.new) (B.beside board.new) (B.rests board.new)) (with_packet packet.now pipe.now.view) }
    ensures words { (words : AName → ℕ) → B.shows board.old words → B.shows board.new words }
    ensures beside { B.beside board.new ≡ B.beside board.old }
    ensures rest { B.rests board.old → B.rests board.new }
{
    let _ = pipe;
    let Packet { number, key, kind } = *packet;
    board.enter(Packet { number, key, kind });
}

// It draws the tick at which it enters.
fn draw_entry<B: Board>(board: &mut B, pipe: &PipeMachine, packet: &Packet) -> u64
    requires { IsFor (B.fits board.old) (B.beside board.old) (at_stage pipe.now (Enter packet.now)) }
    ensures { Goes pipe.now.layout (known (B.fits board.old) (B.shows board.old) (B.beside board.old) (B.rests board.old))
        (staged pipe.now.view (Enter packet.now))
        (known (B.fits board.new) (B.shows board.new) (B.beside board.new) (B.rests board.new))
        (staged pipe.now.view (ANote packet.now result)) }
{
    let _ = pipe;
    let _ = packet;
    board.add(WordName::Tick, 1)
}

// It puts its note up.
fn raise_note<B: Board>(board: &mut B, pipe: &PipeMachine, packet: &Packet, entered: u64)
    requires { IsFor (B.fits board.old) (B.beside board.old) (at_stage pipe.now (ANote packet.now entered)) }
    ensures { Goes pipe.now.layout (known (B.fits board.old) (B.shows board.old) (B.beside board.old) (B.rests board.old))
        (staged pipe.now.view (ANote packet.now entered))
        (known (B.fits board.new) (B.shows board.new) (B.beside board.new) (B.rests board.new))
        (staged pipe.now.view (AVip packet.now entered)) }
{
    let _ = packet;
    let number = pipe.number();
    board.store(WordName::Note { pipe: number }, entered);
}

// It passes the gate: its note is up.
fn pass_gate<B: Board, G: Gate>(
    gate: &G,
    board: &B,
    pipe: &PipeMachine,
    packet: &Packet,
    entered: u64,
)
    requires { IsFor (B.fits board.now) (B.beside board.now) (at_stage pipe.now (AVip packet.now entered)) }
    ensures { G.passed gate.now pipe.now.view.number entered }
{
    let _ = board;
    let _ = packet;
    gate.pass(pipe.number(), entered);
}

// It loads the word of its virtual address, and is in flight.
fn load_vip<B: Board>(board: &mut B, pipe: &PipeMachine, packet: &Packet, entered: u64) -> Flight
    requires vip { packet.now.key.vip < pipe.now.layout.vips }
    requires board { IsFor (B.fits board.old) (B.beside board.old) (at_stage pipe.now (AVip packet.now entered)) }
    ensures goes { Goes pipe.now.layout (known (B.fits board.old) (B.shows board.old) (B.beside board.old) (B.rests board.old))
        (staged pipe.now.view (AVip packet.now entered))
        (known (B.fits board.new) (B.shows board.new) (B.beside board.new) (B.rests board.new))
        (staged pipe.now.view (Fly result (looking pipe.now.layout result (places_from pipe.now.layout result.packet.key 0)))) }
    ensures fits { FitsFlight pipe.now.layout result }
    ensures entered { result.entered ≡ entered }
{
    let vip = vip_of(packet);
    let x = board.load(WordName::Vip { vip });
    Flight {
        packet: *packet,
        entered,
        vip: read_vip(pipe.layout(), x),
    }
}

// Its virtual address.
fn vip_of(packet: &Packet) -> u8
    ensures { result ≡ packet.now.key.vip }
{
    packet.key.vip
}

// Its steps up to the load of its virtual address's word. It passes the gate once its note is up.
pub(crate) fn begin<B: Board, G: Gate>(
    board: &mut B,
    pipe: &PipeMachine,
    packet: &Packet,
    gate: &G,
) -> Flight
    requires vip { packet.now.key.vip < pipe.now.layout.vips }
    requires board { IsFor (B.fits board.old) (B.beside board.old) (at_stage pipe.now (Enter packet.now)) }
    ensures goes { Goes pipe.now.layout (known (B.fits board.old) (B.shows board.old) (B.beside board.old) (B.rests board.old))
        (staged pipe.now.view (Enter packet.now))
        (known (B.fits board.new) (B.shows board.new) (B.beside board.new) (B.rests board.new))
        (staged pipe.now.view (Fly result (looking pipe.now.layout result (places_from pipe.now.layout result.packet.key 0)))) }
    ensures fits { FitsFlight pipe.now.layout result }
    ensures gate { G.passed gate.now pipe.now.view.number result.entered }
{
    let entered = draw_entry(board, pipe, packet);
    raise_note(board, pipe, packet, entered);
    pass_gate(gate, board, pipe, packet, entered);
    load_vip(board, pipe, packet, entered)
}

// Its last two steps: it draws its last tick, which it answers, and clears its note.
pub(crate) fn leave<B: Board>(
    board: &mut B,
    pipe: &PipeMachine,
    flight: &Flight,
    decided: &Decided,
) -> u64
    requires { IsFor (B.fits board.old) (B.beside board.old)
        (record pipe.now { view = reported pipe.now.view decided.now.stored (Fly flight.now (Judged decided.now.verdict AnOut)) }) }
    ensures { Goes pipe.now.layout (known (B.fits board.old) (B.shows board.old) (B.beside board.old) (B.rests board.old))
        (reported pipe.now.view decided.now.stored (Fly flight.now (Judged decided.now.verdict AnOut)))
        (known (B.fits board.new) (B.shows board.new) (B.beside board.new) (B.rests board.new))
        (left pipe.now.view decided.now.stored (packet_line pipe.now.view.number flight.now decided.now.verdict result)) }
{
    let _ = flight;
    let _ = decided;
    let out = board.add(WordName::Tick, 1);
    let number = pipe.number();
    board.store(WordName::Note { pipe: number }, 0);
    out
}
