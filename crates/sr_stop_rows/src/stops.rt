//! A packet of a client stops after each of its steps, in each phase of an update. The controller makes its turns until it waits or finds nothing to do, the
//! packet ends, and the controller makes its turns until nothing is left.

use crate::scene::{answers, finishes, judged, machine, packet, steps};
use sr_base::{Kind, Packet};
use sr_core::{Controlled, Core};
use sr_law::Line;
use sr_machine::{Event, Stepped};
use sr_steps::settle;
use std::alloc::Global;
use std::test::Fail;

const NARROW: &str = "servers = [\"10.1.0.1:80\", \"10.1.0.2:80\"]
[shape]
pipes = 2
buckets = 1
digest_bits = 0
versions = 4
pool_max = 1
full_rows = 4
filter_bits = 64
ring = 8
window_ms = 1
idle_ms = 100
lives = 1
[[vip]]
addr = \"192.0.2.1:80\"
pool = [0]
[[change]]
at_ms = 1
vip = 0
pool = [1]
";

// Whether a line tells that an update came a phase further, before its end.
fn tells_phase(line: &Line) -> bool {
    match line {
        Line::Recorded { .. } => true,
        Line::Hold { .. } => true,
        Line::Switched { .. } => true,
        _ => false,
    }
}

// How many phases the update has come to, of Recording, Holding and Transit.
fn phases(alloc: Global, core: &Core) -> Result<usize, Fail> {
    let lines = core.all_lines(alloc)?;
    Ok(lines.iter().filter(|line| tells_phase(line)).count())
}

// Makes steps of the controller until the update has come to so many phases. False where it doesn't.
fn reaches(alloc: Global, core: &mut Core, wanted: usize) -> Result<bool, Fail> {
    for _step in 0..2_000 {
        if phases(alloc, core)? == wanted {
            return Ok(true);
        }
        match core.control() {
            Controlled::Made => {}
            Controlled::Ended(_) => {}
            _ => return Ok(false),
        }
    }
    Ok(false)
}

// A packet enters on a pipe.
fn enters(core: &mut Core, pipe: u8, packet: Packet) -> bool {
    match core.step(Event::Enter { pipe, packet }) {
        Stepped::Made => true,
        _ => false,
    }
}

// A packet of this kind stops after so many steps, where the update has come to so many phases; the controller makes its turns, the packet ends, and the
// controller makes its turns until nothing is left. The packets, or None where it doesn't come to that.
fn stops(
    alloc: Global,
    core: &mut Core,
    phase: usize,
    kind: Kind,
    stop: u8,
) -> Result<Option<Vec<Packet>>, Fail> {
    let mut packets = Vec::new(alloc);
    if kind != Kind::Opener {
        packets.push(packet(1, 0, 9, Kind::Opener))?;
        enters(core, 0, packet(1, 0, 9, Kind::Opener));
        finishes(core, 0);
    }
    if 0 < phase {
        core.step(Event::Due { ms: 5 });
    }
    packets.push(packet(2, 0, 9, kind))?;
    if !reaches(alloc, core, phase)? || !enters(core, 1, packet(2, 0, 9, kind)) {
        return Ok(None);
    }
    for _step in 0..stop {
        steps(core, 1);
    }
    if answers(core).is_none() {
        return Ok(None);
    }
    finishes(core, 1);
    settle(core)?;
    Ok(Some(packets))
}

// Whether the lines are lawful then.
fn stops_lawfully(
    alloc: Global,
    core: &mut Core,
    phase: usize,
    kind: Kind,
    stop: u8,
) -> Result<bool, Fail> {
    match stops(alloc, core, phase, kind, stop)? {
        Some(packets) => judged(alloc, NARROW, packets.as_slice(), core),
        None => Ok(false),
    }
}

// The same, of a new machine.
fn is_lawful_stopped(alloc: Global, phase: usize, kind: Kind, stop: u8) -> Result<bool, Fail> {
    let mut core = machine(alloc, NARROW)?;
    stops_lawfully(alloc, &mut core, phase, kind, stop)
}

// The first number of steps after which a packet of this kind doesn't stop so that the lines are lawful; None where there is none.
fn first_unlawful(alloc: Global, phase: usize, kind: Kind) -> Result<Option<u8>, Fail> {
    for stop in 0..26 {
        if !is_lawful_stopped(alloc, phase, kind, stop)? {
            return Ok(Some(stop));
        }
    }
    Ok(None)
}

#[test]
fn openers_stop(rt: HostRuntime) -> Result<(), Fail> {
    for phase in 0..4 {
        assert!(rt;
            first_unlawful(rt.alloc(), phase, Kind::Opener)?.is_none(),
            "phase {phase}"
        );
    }
    Ok(())
}

#[test]
fn data_packets_stop(rt: HostRuntime) -> Result<(), Fail> {
    for phase in 0..4 {
        assert!(rt;
            first_unlawful(rt.alloc(), phase, Kind::Carry)?.is_none(),
            "phase {phase}"
        );
    }
    Ok(())
}

#[test]
fn ending_packets_stop(rt: HostRuntime) -> Result<(), Fail> {
    for phase in 0..4 {
        assert!(rt;
            first_unlawful(rt.alloc(), phase, Kind::Ending)?.is_none(),
            "phase {phase}"
        );
    }
    Ok(())
}
