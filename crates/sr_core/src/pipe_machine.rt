ghost use Rattle.std.specs.Prelude.{◌≡◌, ◌+◌, ◌-◌, ◌^◌, ◌<◌, ◌≤◌, [], ◌∷◌, ◌++◌, true, if◌then◌else◌, length, Some, IfSome, OnOk, vec_capacity, vec_len};
ghost use Rattle.sr_base.specs.WordName.{HasWord};
ghost use Rattle.sr_machine.specs.Names.{word_name};
ghost use Rattle.sr_machine.specs.Ops.{op_name};
ghost use Rattle.sr_machine.specs.Pipe.{entered, fresh_pipe, is_idle, lines_after, packet_line, pipe_after, pipe_op, pushed_after};
ghost use Rattle.sr_core.specs.HeldPipe.{HasRoom, lines_count, room_after};
ghost use Rattle.sr_core.specs.Tracks.{stage_of};

use crate::stepping::{track_after, track_op};
use crate::{Course, Track};
use sr_base::{Layout, Packet, layout_ranges};
use sr_law::{Line, Verdict};
use sr_machine::{Flight, Op};
use std::alloc::{AllocError, Global};
use std::marker::Model;

/// A pipe: its next step, and what it knows after it. It touches no word itself: whoever has the words makes the step, and tells
/// what it answered.
#[derive(Drop)]
pub struct PipeMachine {
    layout: Layout,
    number: u8,
    track: Track,
    pushed: u64,
    lines: Vec<Line>,
}

impl Model for PipeMachine {
    ghost use Rattle.std.specs.Prelude.{◌-◌, ◌<◌, ◌≤◌, vec_capacity, vec_len};
    ghost use Rattle.sr_core.specs.HeldPipe.{HasRoom, HeldPipe, most_pushed};
    ghost use Rattle.sr_core.specs.Tracks.{FitsTrack, stage_of};

    ghost Value = { HeldPipe };

    ghost view = { λ p. record {
      layout = p.layout;
      view = record { number = p.number; stage = stage_of p.track; pushed = p.pushed; lines = p.lines.items };
      room = vec_capacity p.lines - vec_len p.lines;
    } };

    ghost invariant = { λ p. (p.number < p.layout.shape.pipes) × FitsTrack p.layout p.track
        × (p.pushed ≤ most_pushed (stage_of p.track) (vec_len p.lines))
        × HasRoom (stage_of p.track) (vec_capacity p.lines - vec_len p.lines) (vec_len p.lines) };
}

impl PipeMachine {
    /// A pipe of this number that has done nothing yet. It takes no memory.
    pub fn new(alloc: Global, number: u8, layout: &Layout) -> PipeMachine
        requires { number < layout.now.shape.pipes }
        ensures layout { result.layout ≡ layout.now }
        ensures view { result.view ≡ fresh_pipe number }
    {
        PipeMachine {
            layout: *layout,
            number,
            track: Track::Idle,
            pushed: 0,
            lines: Vec::new(alloc),
        }
    }

    /// Makes room for at least so many more lines.
    pub fn reserve(&mut self, lines: usize) -> Result<(), AllocError>
        ensures layout { self.new.layout ≡ self.old.layout }
        ensures view { self.new.view ≡ self.old.view }
        ensures room { OnOk result (lines ≤ self.new.room) }
        ensures kept { self.old.room ≤ self.new.room }
    {
        self.lines.reserve(lines)
    }

    /// Its lines so far.
    pub fn lines(&self) -> &[Line]
        ensures { result.now ≡ self.now.view.lines }
    {
        self.lines.as_slice()
    }

    /// Its number.
    pub fn number(&self) -> u8
        ensures value { result ≡ self.now.view.number }
        ensures below { result < self.now.layout.shape.pipes }
    {
        self.number
    }

    /// Its layout.
    pub fn layout(&self) -> &Layout
        ensures { result.now ≡ self.now.layout }
    {
        &self.layout
    }

    /// How many reports it has stored in its ring.
    pub fn pushed(&self) -> u64
        ensures { result ≡ self.now.view.pushed }
    {
        self.pushed
    }

    /// Whether it has no packet in hand.
    pub fn is_idle(&self) -> bool
        ensures { result ≡ is_idle self.now.view.stage }
    {
        match &self.track {
            Track::Idle => true,
            _ => false,
        }
    }

    /// A packet enters.
    pub fn enter(&mut self, packet: Packet)
        requires idle { is_idle self.old.view.stage ≡ true }
        requires vip { packet.key.vip < self.old.layout.vips }
        requires lines { length self.old.view.lines + 1 < 2 ^ 32 }
        requires room { 0 < self.old.room }
        ensures layout { self.new.layout ≡ self.old.layout }
        ensures view { entered self.old.layout packet self.old.view ≡ Some self.new.view }
        ensures room { self.new.room ≡ self.old.room }
    {
        self.track = Track::Enter { packet };
    }

    /// Its next atomic step. None exactly where no packet is in hand.
    pub fn next(&self) -> Option<Op>
        ensures value { result ≡ pipe_op self.now.layout self.now.view self.now.view.stage }
        ensures named { IfSome result (λ op. HasWord self.now.layout (word_name (op_name op))) }
    {
        track_op(&self.layout, self.number, self.pushed, &self.track)
    }

    /// The step was made, and answered this.
    #[tactic(auto, using(crate::proofs::Rooms::pushed_fits, crate::proofs::Rooms::pushes_fit, crate::proofs::Rooms::room_fits, crate::proofs::Rooms::room_counts))]
    pub fn after(&mut self, answer: u64)
        ensures layout { self.new.layout ≡ self.old.layout }
        ensures view { self.new.view ≡ pipe_after self.old.layout self.old.view self.old.view.stage answer }
        ensures room { self.new.room ≡ room_after self.old.view.stage self.old.room }
    {
        let next = track_after(&self.layout, &self.track, answer);
        self.pushed = pushed_after(&self.track, self.pushed);
        write_line(&mut self.lines, self.number, &self.track, answer);
        self.track = next;
    }
}

impl PipeMachine {
    /// A packet was handled at one go: its line is written, and its report counts where it stored one.
    pub fn handled(&mut self, reported: bool, flight: &Flight, verdict: &Verdict, out: u64)
        requires idle { is_idle self.old.view.stage ≡ true }
        requires lines { length self.old.view.lines + 1 < 2 ^ 32 }
        requires room { 0 < self.old.room }
        ensures layout { self.new.layout ≡ self.old.layout }
        ensures view { self.new.view ≡ record self.old.view {
          pushed = self.old.view.pushed + (if reported then 1 else 0);
          lines = self.old.view.lines ++ packet_line self.old.view.number flight.now verdict.now out ∷ [];
        } }
        ensures room { self.new.room ≡ self.old.room - 1 }
    {
        if reported {
            self.pushed += 1;
        }
        let line = packet_line(self.number, flight, verdict, out);
        self.lines.push_reserved(line);
    }
}

// How many reports were pushed after a step.
fn pushed_after(track: &Track, pushed: u64) -> u64
    requires { pushed_after (stage_of track.now) pushed < 2 ^ 64 }
    ensures { result ≡ pushed_after (stage_of track.now) pushed }
{
    match track {
        Track::Fly {
            course: Course::Push { .. },
            ..
        } => pushed + 1,
        _ => pushed,
    }
}

// Writes the line of a packet that leaves by a step which answered this tick.
fn write_line(lines: &mut Vec<Line>, pipe: u8, track: &Track, out: u64)
    requires { HasRoom (stage_of track.now) (vec_capacity lines.old - vec_len lines.old) (vec_len lines.old) }
    ensures items { lines.new.items ≡ lines_after pipe (stage_of track.now) out lines.old.items }
    ensures len { vec_len lines.new ≡ lines_count (stage_of track.now) (vec_len lines.old) }
    ensures capacity { vec_capacity lines.new ≡ vec_capacity lines.old }
{
    match track {
        Track::Fly {
            flight,
            course: Course::Out { verdict },
        } => {
            let line = packet_line(pipe, flight, verdict, out);
            lines.push_reserved(line);
        }
        _ => {}
    }
}

/// The line of a packet that leaves at this tick.
pub fn packet_line(pipe: u8, flight: &Flight, verdict: &Verdict, out: u64) -> Line
    ensures { result ≡ packet_line pipe flight.now verdict.now out }
{
    Line::Packet {
        number: flight.packet.number,
        entered: flight.entered,
        out,
        pipe,
        key: flight.packet.key,
        kind: flight.packet.kind,
        verdict: *verdict,
    }
}
