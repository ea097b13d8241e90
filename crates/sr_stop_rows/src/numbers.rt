//! All 64 version numbers of a virtual address are held, each by a connection, so that a 65th pool waits. It gets the number of the first connection once that one
//! is over and was quiet for a sweep.

use crate::scene::{answers, finishes, judged, machine, packet};
use sr_base::{Kind, Packet};
use sr_core::Core;
use sr_law::Line;
use sr_machine::{Event, Turn};
use sr_steps::settle;
use std::alloc::{AllocError, Global};
use std::test::Fail;

const WIDE: &str = "servers = [\"10.1.0.1:80\", \"10.1.0.2:80\"]
[shape]
pipes = 1
versions = 64
digest_bits = 16
buckets = 8192
full_rows = 1024
filter_bits = 64
ring = 8
window_ms = 1
idle_ms = 1000
lives = 3
pool_max = 1
[[vip]]
addr = \"192.0.2.1:80\"
pool = [0]
";

// The script: the j-th of 64 changes gives a pool after j milliseconds.
fn script(alloc: Global) -> Result<String, AllocError> {
    let mut text = String::from_str(alloc, WIDE)?;
    for j in 1..65 {
        let change = format!(in alloc; "[[change]]\nat_ms = {j}\nvip = 0\npool = [{}]\n", j % 2)?;
        text.push_str(change.as_str())?;
    }
    Ok(text)
}

// The packet of this number, of the client of this number, goes through.
fn goes(
    core: &mut Core,
    packets: &mut Vec<Packet>,
    number: u32,
    client: u8,
    kind: Kind,
) -> Result<(), Fail> {
    packets.push(packet(number, 0, client, kind))?;
    let entering = packet(number, 0, client, kind);
    core.step(Event::Enter {
        pipe: 0,
        packet: entering,
    });
    finishes(core, 0);
    Ok(())
}

// The changes up to this time are made. What the controller answers when it has nothing left to do.
fn due(core: &mut Core, ms: u64) -> Option<Turn> {
    core.step(Event::Due { ms });
    answers(core)
}

// Whether no virtual address has a free number.
fn is_full(turn: Option<Turn>) -> bool {
    turn == Some(Turn::VersionsFull { vip: 0 })
}

// The version and the pool of the last change that was made.
fn last_given(alloc: Global, core: &Core) -> Result<(u8, u64), Fail> {
    let mut last = (64, 0);
    for line in core.all_lines(alloc)?.iter() {
        if let Line::Given { version, pool, .. } = line {
            last = (version.number(), *pool);
        }
    }
    Ok(last)
}

// Whether all numbers are held once 63 changes were made and 64 connections opened, each on a pool of its own, so that the next change waits.
fn holds_all(core: &mut Core, packets: &mut Vec<Packet>) -> Result<bool, Fail> {
    goes(core, packets, 1, 0, Kind::Opener)?;
    let mut idle = answers(core) == Some(Turn::Idle);
    for j in 1..64u8 {
        idle = idle && due(core, j as u64) == Some(Turn::Idle);
        goes(core, packets, 1 + j as u32, j, Kind::Opener)?;
        idle = idle && answers(core) == Some(Turn::Idle);
    }
    Ok(idle && is_full(due(core, 64)))
}

// Whether the waiting change gets the number of the first connection, once that one is over and was quiet for a sweep, and not before.
fn gives_again(alloc: Global, core: &mut Core, packets: &mut Vec<Packet>) -> Result<bool, Fail> {
    goes(core, packets, 65, 0, Kind::Ending)?;
    let waits = is_full(due(core, 1000)) && last_given(alloc, core)? == (63, 64);
    let over = due(core, 2000) == Some(Turn::Idle) && last_given(alloc, core)? == (0, 65);
    settle(core)?;
    Ok(waits && over)
}

// What came of the three questions: all numbers are held, one is given again, and the lines are lawful.
fn answered(alloc: Global, text: &str, core: &mut Core) -> Result<(bool, bool, bool), Fail> {
    let mut packets = Vec::new(alloc);
    let held = holds_all(core, &mut packets)?;
    let again = gives_again(alloc, core, &mut packets)?;
    Ok((held, again, judged(alloc, text, packets.as_slice(), core)?))
}

// The same, of a new machine.
fn answers_of(alloc: Global) -> Result<(bool, bool, bool), Fail> {
    let text = script(alloc)?;
    let mut core = machine(alloc, text.as_str())?;
    answered(alloc, text.as_str(), &mut core)
}

#[test]
fn all_numbers_held(rt: HostRuntime) -> Result<(), Fail> {
    assert!(rt; answers_of(rt.alloc())? == (true, true, true));
    Ok(())
}
