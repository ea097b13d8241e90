ghost use Rattle.std.specs.Prelude.{IfOk};
ghost use Rattle.sr_steps.specs.Running.{ActsRound, ActsRounds, RanByActs};

use crate::making::make;
use crate::running::shares;
use crate::{Run, Standing, play_in_order, settle};
use sr_acts::MachineConfig;
use sr_core::Core;
use sr_gen::Generator;
use sr_machine::Event;
use sr_rounds::{Round, Timed, rounds};
use std::alloc::{AllocError, Global};

/// The run of these packets round by round, in order: in each round one pipe after another handles its share, and then the controller makes
/// its turns; after the last round come turns until nothing is left to do.
pub fn run_in_order(
    alloc: Global,
    config: MachineConfig,
    packets: &[Timed],
) -> Result<Run, AllocError>
    ensures { IfOk result (λ run. RanByActs config packets.now run.settled run.core) }
{
    let rounds = rounds(alloc, packets, config.layout().shape())?;
    let mut core = Core::new(alloc, config)?;
    replay_rounds(alloc, &mut core, packets, &rounds)?;
    let settled = settle(&mut core)?;
    Ok(Run { core, settled })
}

// Plays these rounds, one after another.
fn replay_rounds(
    alloc: Global,
    core: &mut Core,
    packets: &[Timed],
    rounds: &[Round],
) -> Result<(), AllocError>
    ensures { IfOk result (λ done. ActsRounds packets.now rounds.now core.old core.new) }
{
    for round in rounds {
        replay_round(alloc, core, packets, round)?;
    }
    Ok(())
}

// Plays a round: the time of its window is told, and the packets are shared. Nothing is drawn from the generator.
fn replay_round(
    alloc: Global,
    core: &mut Core,
    packets: &[Timed],
    round: &Round,
) -> Result<(), AllocError>
    ensures { IfOk result (λ done. ActsRound packets.now round.now core.old core.new) }
{
    let shares = shares(alloc, packets, round, core.pipes())?;
    make(core, Event::Due { ms: round.start_ms })?;
    let mut standing = Standing::new(shares, Generator::new(0));
    play_in_order(core, &mut standing)?;
    Ok(())
}
