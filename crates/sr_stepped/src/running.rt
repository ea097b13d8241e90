ghost use Rattle.std.specs.Prelude.{◌≡◌, IfOk};
ghost use Rattle.sr_core.specs.HeldCore.{Shows};
ghost use Rattle.sr_core.specs.PlainWords.{ShowsWords};
ghost use Rattle.sr_interleave.specs.Together.{AreTogether, held};
ghost use Rattle.sr_machine.specs.Core.{opening};
ghost use Rattle.sr_machine.specs.Opening.{opening_controller, opening_words};
ghost use Rattle.sr_script.specs.Fitting.{IsFitting};
ghost use Rattle.sr_script.specs.Script.{spelled};
ghost use Rattle.sr_scripted.specs.Played.{Plays};
ghost use Rattle.sr_stepped.specs.Running.{RunsTo};

use crate::beginning::new_pipes;
use crate::ending::lines_of;
use crate::rounds::play_rounds;
use crate::settling::settle;
use sr_acts::MachineConfig;
use sr_base::layout_ranges;
use sr_ctl::Controller;
use sr_pipe::Pipe;
use sr_plain::PlainBoard;
use sr_rounds::{Timed, rounds};
use sr_script::Script;
use sr_scripted::{Played, awaited_after, config_of, packets_ranges};
use std::alloc::{AllocError, Global};

/// The run of a script over these packets, by the picks of a seed.
pub fn step_script(
    alloc: Global,
    script: Script,
    packets: &[Timed],
    seed: u64,
) -> Result<Played, AllocError>
    requires { IsFitting (spelled script) }
    ensures { IfOk result (λ played. Plays (spelled script) seed packets.now played.lines.items played.awaited) }
{
    packets_ranges(packets);
    let config = config_of(alloc, script)?;
    let played = run(alloc, config, packets, seed)?;
    Ok(played)
}

// The same, of the script's machine.
fn run(
    alloc: Global,
    config: MachineConfig,
    packets: &[Timed],
    seed: u64,
) -> Result<Played, AllocError>
    ensures { IfOk result (λ played. RunsTo config seed packets.now played.lines.items played.awaited) }
{
    let mut controller = Controller::new(alloc, config)?;
    run_under(alloc, packets, seed, &mut controller)
}

// The same, with a controller that has done nothing yet.
fn run_under(
    alloc: Global,
    packets: &[Timed],
    seed: u64,
    controller: &mut Controller,
) -> Result<Played, AllocError>
    requires { controller.old.view ≡ opening_controller controller.old.config }
    ensures { IfOk result (λ played. RunsTo controller.old.config seed packets.now played.lines.items played.awaited) }
{
    let mut board = PlainBoard::opening(alloc, controller.config())?;
    run_over(alloc, packets, seed, &mut board, controller)
}

// The same, over the words at the beginning.
fn run_over(
    alloc: Global,
    packets: &[Timed],
    seed: u64,
    board: &mut PlainBoard,
    controller: &mut Controller,
) -> Result<Played, AllocError>
    requires controller { controller.old.view ≡ opening_controller controller.old.config }
    requires layout { board.old.layout ≡ controller.old.config.layout }
    requires words { ShowsWords controller.old.config.layout board.old.words (opening_words controller.old.config) }
    ensures { IfOk result (λ played. RunsTo controller.old.config seed packets.now played.lines.items played.awaited) }
{
    let mut pipes = new_pipes(alloc, controller.config().layout())?;
    run_all(
        alloc,
        packets,
        seed,
        board,
        pipes.as_mut_slice(),
        controller,
    )
}

// The same, with all at the beginning.
fn run_all(
    alloc: Global,
    packets: &[Timed],
    seed: u64,
    board: &mut PlainBoard,
    pipes: &mut [Pipe],
    controller: &mut Controller,
) -> Result<Played, AllocError>
    requires together { AreTogether board.old pipes.old controller.old }
    requires first { Shows (held board.old pipes.old controller.old) (opening controller.old.config) }
    ensures { IfOk result (λ played. RunsTo controller.old.config seed packets.now played.lines.items played.awaited) }
{
    let layout = *controller.config().layout();
    layout_ranges(&layout);
    let rounds = rounds(alloc, packets, layout.shape())?;
    play_rounds(alloc, packets, &rounds, seed, board, pipes, controller)?;
    let awaited = awaited_after(settle(board, controller))?;
    let lines = lines_of(alloc, pipes, controller.lines())?;
    Ok(Played { lines, awaited })
}
