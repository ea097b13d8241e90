ghost use Rattle.std.specs.Prelude.{◌≡◌, ◌++◌, IfOk, reverse};
ghost use Rattle.sr_inv_runs.specs.Runs.{ArePackets};
ghost use Rattle.sr_machine.specs.Core.{newest_first, pipe_lines};
ghost use Rattle.sr_script.specs.Fitting.{IsFitting};
ghost use Rattle.sr_script.specs.Script.{spelled};
ghost use Rattle.sr_scripted.specs.Played.{ActsLeadTo, LeadsTo, Plays, Replays, settled_for};

use crate::{config_of, in_order};
use sr_base::{Key, key_ranges};
use sr_core::Core;
use sr_law::Line;
use sr_machine::Settled;
use sr_rounds::Timed;
use sr_script::Script;
use sr_steps::{run_by_picks, run_in_order};
use std::alloc::{AllocError, Global};

/// What is left of a run.
#[derive(Debug, Drop)]
pub struct Played {
    /// The lines of all actors, by their ticks.
    pub lines: Vec<Line>,
    /// The key that an update waits for, if one does; it has no plan.
    pub awaited: Option<Key>,
}

/// The run of a script over these packets, by the picks of a seed.
pub fn play_script(
    alloc: Global,
    script: Script,
    packets: &[Timed],
    seed: u64,
) -> Result<Played, AllocError>
    requires { IsFitting (spelled script) }
    ensures { IfOk result (λ played. Plays (spelled script) seed packets.now played.lines.items played.awaited) }
{
    packets_ranges(packets);
    let played = run_script(alloc, script, packets, seed)?;
    Ok(played)
}

// The same, step by step.
fn run_script(
    alloc: Global,
    script: Script,
    packets: &[Timed],
    seed: u64,
) -> Result<Played, AllocError>
    requires { IsFitting (spelled script) }
    ensures { IfOk result (λ played. LeadsTo (spelled script) seed packets.now played.lines.items played.awaited) }
{
    let config = config_of(alloc, script)?;
    let run = run_by_picks(alloc, config, packets, seed)?;
    let played = left_of(alloc, &run.core, run.settled)?;
    Ok(played)
}

/// The run of a script over these packets: in each round one pipe after another handles its share, each packet whole, and then the
/// controller makes its turns.
pub fn replay_script(alloc: Global, script: Script, packets: &[Timed]) -> Result<Played, AllocError>
    requires { IsFitting (spelled script) }
    ensures { IfOk result (λ played. Replays (spelled script) packets.now played.lines.items played.awaited) }
{
    packets_ranges(packets);
    let played = run_in_rounds(alloc, script, packets)?;
    Ok(played)
}

// The same, step by step.
fn run_in_rounds(alloc: Global, script: Script, packets: &[Timed]) -> Result<Played, AllocError>
    requires { IsFitting (spelled script) }
    ensures { IfOk result (λ played. ActsLeadTo (spelled script) packets.now played.lines.items played.awaited) }
{
    let config = config_of(alloc, script)?;
    let run = run_in_order(alloc, config, packets)?;
    let played = left_of(alloc, &run.core, run.settled)?;
    Ok(played)
}

// What is left of a run that came to this machine, and whose turns ended so.
fn left_of(alloc: Global, core: &Core, settled: Settled) -> Result<Played, AllocError>
    ensures lines { IfOk result (λ played. played.lines.items ≡ reverse (newest_first (pipe_lines core.now.pipes ++ core.now.controller.lines))) }
    ensures awaited { IfOk result (λ played. settled ≡ settled_for played.awaited) }
{
    let awaited = awaited_after(settled)?;
    let lines = in_order(core.all_lines(alloc)?)?;
    Ok(Played { lines, awaited })
}

/// The ranges of the parts of packets' keys.
pub fn packets_ranges(packets: &[Timed])
    ensures { ArePackets packets.now }
{
    for timed in packets {
        key_ranges(timed.packet.key);
    }
}

/// The key that an update waits for after turns that ended so, if one does.
pub fn awaited_after(settled: Settled) -> Result<Option<Key>, AllocError>
    ensures { IfOk result (λ key. settled ≡ settled_for key) }
{
    match settled {
        Settled::Quiet => Ok(None),
        Settled::Waiting { key } => Ok(Some(key)),
        Settled::Memory => Err(AllocError),
    }
}
