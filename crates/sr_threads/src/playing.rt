ghost use Rattle.std.specs.Prelude.{◌≡◌, ◌-◌, ◌≤◌, IfOk, drop, length, take, Some, if◌then◌else◌};
ghost use Rattle.sr_machine.specs.Telling.{is_no_earlier};
ghost use Rattle.sr_rounds.specs.Rounds.{rounds_of};
ghost use Rattle.sr_threads.specs.Governing.{Governs, beside};
ghost use Rattle.sr_threads.specs.Playing.{Played};
ghost use Rattle.sr_threads.specs.Working.{AllReady};

use crate::round::play_round;
use crate::worker::Worker;
use sr_base::Layout;
use sr_ctl::Controller;
use sr_io::Gate;
use sr_rounds::{Round, Timed, rounds_are_windows};
use sr_words::WordBoard;
use std::alloc::AllocError;
use std::thread::Threads;

/// Plays these rounds, one after another: each tells the controller its time, and then all act beside one another.
pub fn play_rounds<R: Threads + Sync, G: Gate + Sync>(
    rt: &R,
    layout: &Layout,
    packets: &[Timed],
    rounds: &[Round],
    gate: &G,
    controller: &mut Controller,
    board: &mut WordBoard<'_>,
    workers: &mut [Worker<'_>],
) -> Result<(), AllocError>
    requires pipes { AllReady layout.now workers.old }
    requires controller { Governs board.old controller.old }
    requires rounds { rounds.now ≡ rounds_of layout.now.shape.window_ms packets.now }
    ensures { IfOk result (λ done. Played layout.now packets.now rounds.now workers.old board.old controller.old workers.new board.new controller.new) }
{
    rounds_are_windows();
    for round in rounds {
        tell(controller, board, round.start_ms);
        let part = packets_from(packets, round.from, round.to);
        play_round(rt, layout, part, gate, controller, board, workers)?;
    }
    Ok(())
}

// The controller is told the time, unless its clock is past it.
fn tell(controller: &mut Controller, board: &mut WordBoard<'_>, ms: u64)
    requires { Governs board.old controller.old }
    ensures config { controller.new.config ≡ controller.old.config }
    ensures board { Governs board.new controller.new }
    ensures beside { beside board.new ≡ beside board.old }
    ensures clock { controller.new.view.clock ≡ (if is_no_earlier controller.old.view.clock ms then Some ms else controller.old.view.clock) }
{
    if controller.can_be_told(ms) {
        controller.due(board, ms);
    }
}

// The packets from one position on, to another.
fn packets_from(packets: &[Timed], from: usize, to: usize) -> &[Timed]
    requires order { from ≤ to }
    requires within { to ≤ length packets.now }
    ensures { result.now ≡ take (to - from) (drop from packets.now) }
{
    &packets[from..to]
}
