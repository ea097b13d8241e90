ghost use Rattle.std.specs.Prelude.{◌≡◌, ◌+◌, ◌≤◌, None, IfOk, length, map};
ghost use Rattle.sr_base.specs.Limit.{limit_of};
ghost use Rattle.sr_demo.specs.Demo.{Demonstrates};
ghost use Rattle.sr_gen.specs.Capture.{most_packets};
ghost use Rattle.sr_law.specs.Lawful.{IsLawful};
ghost use Rattle.sr_played.specs.Captured.{setup_for};
ghost use Rattle.sr_script.specs.Fitting.{IsFitting};
ghost use Rattle.sr_script.specs.Script.{spelled};

use crate::capture::read_made;
use crate::script::demo_script;
use sr_audit::{check, count_openings, count_switches};
use sr_base::{Key, Packet};
use sr_io::Gate;
use sr_law::{CheckRefusal, Line, Pools, Setup};
use sr_rounds::Timed;
use sr_script::Script;
use sr_threads::replay_on_threads;
use std::alloc::{AllocError, Global};
use std::thread::Threads;

/// What a demonstration comes to.
#[derive(Debug, Drop)]
pub struct Demonstration {
    /// How many records the capture has.
    pub packets: usize,
    /// How many connections were opened.
    pub opened: usize,
    /// How many switches there were.
    pub switched: usize,
    /// The key that an update waits for, if one does.
    pub awaited: Option<Key>,
}

/// Makes the capture of so many packets from a number, replays it in threads by the script of the demonstration, and has the lines judged:
/// they are lawful. The demonstration counts them.
pub fn demonstrate<R: Threads + Sync, G: Gate + Sync>(
    rt: &R,
    alloc: Global,
    number: u64,
    packets: u32,
    gate: &G,
) -> Result<Demonstration, AllocError>
    requires { (1 ≤ packets) × (packets ≤ most_packets) }
    ensures { IfOk result (Demonstrates number packets) }
{
    let script = demo_script(alloc)?;
    let captured = read_made(alloc, number, packets, &script.vips)?;
    let setup = setup_for(alloc, &script, &captured.packets)?;
    let played = replay_on_threads(rt, alloc, script, &captured.packets, gate)?;
    judge(alloc, &setup, &played.lines)?;
    let opened = count_openings(alloc, &played.lines)?;
    Ok(Demonstration {
        packets: captured.packets.len() + captured.skips.len(),
        opened,
        switched: count_switches(&played.lines),
        awaited: played.awaited,
    })
}

// What the lines of a run of these packets by the script are judged by.
fn setup_for(alloc: Global, script: &Script, packets: &[Timed]) -> Result<Setup, AllocError>
    requires { IsFitting (spelled script.now) }
    ensures { IfOk result (λ setup. setup ≡ setup_for (spelled script.now) packets.now) }
{
    let pools = Pools::new(alloc, &script.first, &script.changes)?;
    let packets = packets_of(alloc, packets)?;
    Ok(Setup {
        shape: script.shape,
        servers: script.servers.len() as u32,
        pools,
        packets,
    })
}

// The packets alone.
fn packets_of(alloc: Global, packets: &[Timed]) -> Result<Vec<Packet>, AllocError>
    ensures { IfOk result (λ v. v.items ≡ map (λ t. t.packet) packets.now) }
{
    packets.iter().map(|timed| timed.packet).collect(alloc)
}

// Has the auditor judge lines that are lawful. It finds no breach.
fn judge(alloc: Global, setup: &Setup, lines: &[Line]) -> Result<(), AllocError>
    requires limits { limit_of setup.now.shape (length setup.now.pools) setup.now.servers ≡ None }
    requires lawful { IsLawful setup.now lines.now }
{
    match check(alloc, setup, lines) {
        Ok(()) => Ok(()),
        Err(refusal) => match refusal {
            CheckRefusal::Memory => Err(AllocError),
            CheckRefusal::Breach { .. } => unreachable!(),
        },
    }
}
