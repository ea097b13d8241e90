ghost use Rattle.std.specs.Prelude.{◌≡◌, ◌-◌, ◌==◌, ◌≤◌, IfOk, drop, filter, map, take};
ghost use Rattle.std.specs.List.{range_with_len};
ghost use Rattle.sr_hash.specs.Uses.{pipe_number};
ghost use Rattle.sr_picks.specs.Run.{packets_in, shares_of};
ghost use Rattle.sr_steps.specs.Running.{PlaysRound, PlaysRounds, Ran};

use crate::making::make;
use crate::{Share, Standing, play, settle};
use sr_acts::MachineConfig;
use sr_base::Packet;
use sr_core::Core;
use sr_gen::Generator;
use sr_hash::pipe_of;
use sr_machine::{Event, Settled};
use sr_rounds::{Round, Timed, rounds};
use std::alloc::{AllocError, Global};

/// The machine after a run, and how the turns after its last round ended.
#[derive(Drop)]
pub struct Run {
    /// The machine.
    pub core: Core,
    /// How the turns ended.
    pub settled: Settled,
}

/// The run of these packets by the picks of a seed: all rounds, and then turns until nothing is left to do.
pub fn run_by_picks(
    alloc: Global,
    config: MachineConfig,
    packets: &[Timed],
    seed: u64,
) -> Result<Run, AllocError>
    ensures { IfOk result (λ run. Ran config seed packets.now run.settled run.core) }
{
    let rounds = rounds(alloc, packets, config.layout().shape())?;
    let mut core = Core::new(alloc, config)?;
    play_rounds(alloc, &mut core, packets, &rounds, seed)?;
    let settled = settle(&mut core)?;
    Ok(Run { core, settled })
}

// Plays these rounds, one after another.
fn play_rounds(
    alloc: Global,
    core: &mut Core,
    packets: &[Timed],
    rounds: &[Round],
    seed: u64,
) -> Result<(), AllocError>
    ensures { IfOk result (λ done. PlaysRounds packets.now rounds.now seed core.old core.new) }
{
    let mut generator = Generator::new(seed);
    for round in rounds {
        generator = play_round(alloc, core, packets, round, generator)?;
    }
    Ok(())
}

// Plays a round: the time of its window is told, and the packets are shared. It answers the generator after it.
fn play_round(
    alloc: Global,
    core: &mut Core,
    packets: &[Timed],
    round: &Round,
    generator: Generator,
) -> Result<Generator, AllocError>
    ensures { IfOk result (λ after. PlaysRound packets.now round.now generator after core.old core.new) }
{
    let shares = shares(alloc, packets, round, core.pipes())?;
    make(core, Event::Due { ms: round.start_ms })?;
    let mut standing = Standing::new(shares, generator);
    play(core, &mut standing)?;
    Ok(standing.generator())
}

// What each of so many pipes handles of a round's packets.
pub(crate) fn shares(
    alloc: Global,
    packets: &[Timed],
    round: &Round,
    pipes: u8,
) -> Result<Vec<Share>, AllocError>
    ensures { IfOk result (λ shares. shares.items ≡ shares_of pipes (packets_in packets.now round.now)) }
{
    let mut shares = Vec::new(alloc);
    for pipe in 0..pipes {
        shares.push(Share::new(packets_on(alloc, packets, round, pipes, pipe)?))?;
    }
    Ok(shares)
}

/// What a pipe handles of a round's packets.
pub fn packets_on(
    alloc: Global,
    packets: &[Timed],
    round: &Round,
    pipes: u8,
    pipe: u8,
) -> Result<Vec<Packet>, AllocError>
    requires { 1 ≤ pipes }
    ensures { IfOk result (λ share. share.items ≡ filter (λ p. pipe_number p.key pipes == pipe) (packets_in packets.now round.now)) }
{
    packets
        .iter()
        .skip(round.from)
        .take(round.to.saturating_sub(round.from))
        .map(|timed| timed.packet)
        .filter(|packet| pipe_of(packet.key, pipes) == pipe)
        .collect(alloc)
}
