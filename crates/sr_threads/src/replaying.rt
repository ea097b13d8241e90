ghost use Rattle.std.specs.Prelude.{◌≡◌, IfOk};
ghost use Rattle.sr_machine.specs.Opening.{opening_controller};
ghost use Rattle.sr_script.specs.Fitting.{IsFitting};
ghost use Rattle.sr_script.specs.Script.{spelled};
ghost use Rattle.sr_scripted.specs.Played.{Replays};
ghost use Rattle.sr_threads.specs.Replayed.{RunsOnThreads};
ghost use Rattle.sr_words.specs.Boarding.{IsFirst};

use crate::ending::end;
use crate::hiring::hire;
use crate::playing::play_rounds;
use sr_acts::MachineConfig;
use sr_base::layout_ranges;
use sr_ctl::Controller;
use sr_io::Gate;
use sr_rounds::{Timed, rounds};
use sr_script::Script;
use sr_scripted::{Played, config_of};
use sr_words::{Boards, First, Rested, Switch};
use std::alloc::{AllocError, Global};
use std::thread::Threads;

/// The run of a script over these packets on running threads: in each round all pipes handle their packets while the controller makes its
/// turns; after the last one the boards rest, and turns are made until nothing is left to do. Each packet passes the gate once its note is
/// up. It waits for nobody.
pub fn replay_on_threads<R: Threads + Sync, G: Gate + Sync>(
    rt: &R,
    alloc: Global,
    script: Script,
    packets: &[Timed],
    gate: &G,
) -> Result<Played, AllocError>
    requires { IsFitting (spelled script) }
    ensures { IfOk result (λ played. Replays (spelled script) packets.now played.lines.items played.awaited) }
{
    let config = config_of(alloc, script)?;
    let played = run_on_threads(rt, alloc, config, packets, gate)?;
    Ok(played)
}

// The same, of the script's machine.
fn run_on_threads<R: Threads + Sync, G: Gate + Sync>(
    rt: &R,
    alloc: Global,
    config: MachineConfig,
    packets: &[Timed],
    gate: &G,
) -> Result<Played, AllocError>
    ensures { IfOk result (λ played. RunsOnThreads config packets.now played.lines.items played.awaited) }
{
    let mut controller = Controller::new(alloc, config)?;
    run_under(rt, alloc, packets, gate, &mut controller)
}

// The same, with a controller that has done nothing yet.
fn run_under<R: Threads + Sync, G: Gate + Sync>(
    rt: &R,
    alloc: Global,
    packets: &[Timed],
    gate: &G,
    controller: &mut Controller,
) -> Result<Played, AllocError>
    requires { controller.old.view ≡ opening_controller controller.old.config }
    ensures { IfOk result (λ played. RunsOnThreads controller.old.config packets.now played.lines.items played.awaited) }
{
    let (switch, first) = Switch::new(alloc, controller.config())?;
    let (played, rested) = run_over(rt, alloc, &switch, first, packets, gate, controller)?;
    switch.close(rested);
    Ok(played)
}

// The same, over the words of a switch.
fn run_over<R: Threads + Sync, G: Gate + Sync>(
    rt: &R,
    alloc: Global,
    switch: &Switch,
    first: First,
    packets: &[Timed],
    gate: &G,
    controller: &mut Controller,
) -> Result<(Played, Rested), AllocError>
    requires controller { controller.old.view ≡ opening_controller controller.old.config }
    requires switch { switch.now.table.shared.key ≡ controller.old.config }
    requires first { IsFirst switch.now.table.shared.key switch.now.table.shared.table_id first.seat.table_id first.seat.me }
    ensures runs { IfOk result (λ r. RunsOnThreads controller.old.config packets.now r.0.lines.items r.0.awaited) }
    ensures table { IfOk result (λ r. r.1.seat.table_id ≡ switch.now.table.shared.table_id) }
{
    let layout = *controller.config().layout();
    layout_ranges(&layout);
    let rounds = rounds(alloc, packets, layout.shape())?;
    let Boards {
        pipes,
        controller: mut board,
    } = switch.boards(alloc, first)?;
    let mut workers = hire(alloc, switch, &layout, pipes)?;
    play_rounds(
        rt,
        &layout,
        packets,
        &rounds,
        gate,
        controller,
        &mut board,
        workers.as_mut_slice(),
    )?;
    controller.between_turns();
    let ended = end(alloc, controller, board, workers)?;
    Ok(ended)
}
