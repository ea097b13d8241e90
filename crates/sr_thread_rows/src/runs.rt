//! Captures that are played on threads: what their lines have in common, whatever the threads do.

use sr_base::{Key, Kind, Packet};
use sr_io::OpenGate;
use sr_law::{Line, Verdict};
use sr_rounds::Timed;
use sr_script::parse;
use sr_threads::replay_on_threads;
use std::alloc::{AllocError, Global};
use std::test::Fail;
use std::thread::Threads;

// One pipe, one bucket, no digest bits, so that all keys clash.
const NARROW: &str = "servers = [\"10.1.0.1:80\", \"10.1.0.2:80\"]
[shape]
pipes = 1
buckets = 1
digest_bits = 0
versions = 4
pool_max = 1
full_rows = 4
filter_bits = 1
ring = 8
window_ms = 1
idle_ms = 1
lives = 1
[[vip]]
addr = \"192.0.2.1:80\"
pool = [0]
";

// Two pipes, and a change of the pool in the second round.
const WIDE: &str = "servers = [\"10.1.0.1:80\", \"10.1.0.2:80\"]
[shape]
pipes = 2
[[vip]]
addr = \"192.0.2.1:80\"
pool = [0]
[[change]]
at_ms = 200
vip = 0
pool = [1]
";

// How many lines of each kind a run printed.
#[derive(Clone, Copy)]
struct Count {
    packets: u64,
    sent: u64,
    placed: u64,
    switched: u64,
    all: u64,
}

// So many openers and as many data packets of different connections, each pair in one window.
fn pairs(alloc: Global, count: u32) -> Result<Vec<Timed>, AllocError> {
    let mut packets = Vec::new(alloc);
    for number in 0..count {
        if let Some(key) = Key::new(0, number, 4000) {
            for kind in [Kind::Opener, Kind::Carry] {
                packets.push(Timed {
                    packet: Packet { number, key, kind },
                    ms: number as u64,
                })?;
            }
        }
    }
    Ok(packets)
}

// The lines of a run, counted. None where the script is refused, a key is waited for, or memory is short.
fn counted<R: Threads + Sync>(rt: &R, alloc: Global, script: &str, count: u32) -> Option<Count> {
    let script = parse(alloc, script.as_bytes()).ok()?;
    let packets = pairs(alloc, count).ok()?;
    let played = replay_on_threads(rt, alloc, script, &packets, &OpenGate).ok()?;
    if played.awaited.is_some() {
        return None;
    }
    let lines = played.lines.as_slice();
    Some(Count {
        packets: lines.iter().filter(|line| is_packet(line)).count() as u64,
        sent: lines.iter().filter(|line| is_sent(line)).count() as u64,
        placed: lines.iter().filter(|line| is_placed(line)).count() as u64,
        switched: lines.iter().filter(|line| is_switched(line)).count() as u64,
        all: lines.len() as u64,
    })
}

fn is_packet(line: &Line) -> bool {
    matches!(line, Line::Packet { .. })
}

fn is_sent(line: &Line) -> bool {
    match line {
        Line::Packet {
            verdict: Verdict::To { .. },
            ..
        } => true,
        _ => false,
    }
}

fn is_placed(line: &Line) -> bool {
    matches!(line, Line::Placed { .. })
}

fn is_switched(line: &Line) -> bool {
    matches!(line, Line::Switched { .. })
}

// A connection over one pipe: the pool is given, both packets go to it, and the key is reserved and placed.
#[test]
fn one_pipe(rt: HostRuntime) -> Result<(), Fail> {
    let count = counted(&rt, rt.alloc(), NARROW, 1).ok_or("run")?;
    assert!(rt; count.packets == 2 && count.sent == 2 && count.placed == 1);
    assert!(rt; count.all == 5);
    Ok(())
}

// Connections over two pipes while the pool changes: each packet has its line, and the change is made.
#[test]
fn two_pipes(rt: HostRuntime) -> Result<(), Fail> {
    let count = counted(&rt, rt.alloc(), WIDE, 400).ok_or("run")?;
    assert!(rt; count.packets == 800);
    assert!(rt; count.switched == 1);
    Ok(())
}
