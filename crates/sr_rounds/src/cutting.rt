ghost use Rattle.std.specs.Prelude.{◌≡◌, ◌+◌, ◌^◌, ◌<◌, ◌≤◌, IfOk};
ghost use Rattle.sr_rounds.specs.Rounds.{opened, rounds_of, takes, window_start};

use crate::{Round, Timed};
use sr_base::Shape;
use std::alloc::{AllocError, Global};

// How many packets a round has at most.
const MOST_PACKETS: usize = 65_536;

/// The rounds of a capture's packets, in order.
pub fn rounds(alloc: Global, packets: &[Timed], shape: &Shape) -> Result<Vec<Round>, AllocError>
    requires { 1 ≤ shape.now.window_ms }
    ensures { IfOk result (λ v. v.items ≡ rounds_of shape.now.window_ms packets.now) }
{
    let window_ms = shape.window_ms;
    let mut rounds = Vec::new(alloc);
    if packets.is_empty() {
        return Ok(rounds);
    }
    let mut open = opened(window_ms, 0, &packets[0]);
    for timed in &packets[1..] {
        if takes(window_ms, &open, timed) {
            open.to += 1;
        } else {
            rounds.push(open)?;
            open = opened(window_ms, open.to, timed);
        }
    }
    rounds.push(open)?;
    Ok(rounds)
}

// When the window of a time begins.
fn window_start(window_ms: u64, ms: u64) -> u64
    requires { 1 ≤ window_ms }
    ensures { result ≡ window_start window_ms ms }
{
    ms / window_ms * window_ms
}

// A round of this packet alone.
fn opened(window_ms: u64, at: usize, timed: &Timed) -> Round
    requires window { 1 ≤ window_ms }
    requires room { at + 1 < 2 ^ 64 }
    ensures { result ≡ opened window_ms at timed.now }
{
    Round {
        start_ms: window_start(window_ms, timed.ms),
        from: at,
        to: at + 1,
    }
}

// Whether the packet after a round belongs to it.
fn takes(window_ms: u64, round: &Round, timed: &Timed) -> bool
    requires window { 1 ≤ window_ms }
    requires some { round.now.from ≤ round.now.to }
    ensures { result ≡ takes window_ms round.now timed.now }
{
    window_start(window_ms, timed.ms) == round.start_ms && round.to - round.from < MOST_PACKETS
}
