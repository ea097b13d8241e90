ghost use Rattle.std.specs.Prelude.{◌≡◌, reverse};
ghost use Rattle.std.specs.List.{list_any};
ghost use Rattle.sr_law.specs.Retire.{ending_by, endings_of, may_end, retired_by, last_retired, placed_by, last_placed, is_before, uses_entry, uses_between, is_quiet_between, is_quiet, may_retire, meets_retire};

use crate::openings::is_open;
use crate::sweeps::{is_next_sweep, last_sweep, numbered_sweep};
use crate::{Line, Setup, Sweep};
use sr_base::{Key, Kind};

// The line's packet ends this connection: it entered before this tick, and was out after the connection was last retired.
fn ends(c: Key, retired: u64, tick: u64, line: &Line) -> bool
    ensures { result ≡ list_any (may_end c retired tick) (ending_by line.now) }
{
    match *line {
        Line::Packet {
            entered,
            out,
            key,
            kind: Kind::Ending,
            ..
        } => key.same(c) && entered < tick && retired < out,
        _ => false,
    }
}

// Some line of all ends this connection.
#[tactic(auto, using(crate::proofs::Newest::newest_more, crate::proofs::Endings::any_ending))]
fn any_ends(all: &[Line], c: Key, retired: u64, tick: u64) -> bool
    ensures { result ≡ list_any (may_end c retired tick) (endings_of (reverse all.now)) }
{
    let mut any = false;
    for line in all {
        if ends(c, retired, tick, line) {
            any = true;
        }
    }
    any
}

// The tick at which a line retires this connection.
fn retired_by(line: &Line, c: Key) -> Option<u64>
    ensures { result ≡ retired_by line.now c }
{
    match *line {
        Line::Retired { out, key } => if key.same(c) { Some(out) } else { None },
        _ => None,
    }
}

// The tick at which a connection was last retired, or 0.
#[tactic(auto, using(crate::proofs::Newest::newest_more))]
fn last_retired(before: &[Line], c: Key) -> u64
    ensures { result ≡ last_retired (reverse before.now) c }
{
    let mut last = 0;
    for line in before {
        if let Some(tick) = retired_by(line, c) {
            last = tick;
        }
    }
    last
}

// The tick at which a line places an entry of this connection.
fn placed_by(line: &Line, c: Key) -> Option<u64>
    ensures { result ≡ placed_by line.now c }
{
    match *line {
        Line::Placed { out, key, .. } => if key.same(c) { Some(out) } else { None },
        _ => None,
    }
}

// The tick at which an entry of a connection was last placed.
#[tactic(auto, using(crate::proofs::Newest::newest_more))]
fn last_placed(before: &[Line], c: Key) -> Option<u64>
    ensures { result ≡ last_placed (reverse before.now) c }
{
    let mut last = None;
    for line in before {
        if let Some(tick) = placed_by(line, c) {
            last = Some(tick);
        }
    }
    last
}

// There is a tick, and it is before this one.
fn is_before(last: Option<u64>, tick: u64) -> bool
    ensures { result ≡ is_before last tick }
{
    match last {
        Some(n) => n < tick,
        None => false,
    }
}

// The packet uses a live entry.
fn uses_entry(kind: Kind) -> bool
    ensures { result ≡ uses_entry kind }
{
    match kind {
        Kind::Opener => false,
        _ => true,
    }
}

// The line is of a packet of this connection that used its entry between two ticks.
fn uses_between(c: Key, low: u64, high: u64, line: &Line) -> bool
    ensures { result ≡ uses_between c low high line.now }
{
    match *line {
        Line::Packet {
            entered,
            out,
            key,
            kind,
            ..
        } => key.same(c) && uses_entry(kind) && low <= entered && out <= high,
        _ => false,
    }
}

// Some packet of this connection used its entry between two ticks.
fn any_uses_between(before: &[Line], c: Key, low: u64, high: u64) -> bool
    ensures { result ≡ list_any (uses_between c low high) (reverse before.now) }
{
    before
        .iter()
        .rev()
        .any(|line| uses_between(c, low, high, line))
}

// From one sweep to another a connection was placed and sent nothing.
fn is_quiet_between(before: &[Line], c: Key, early: Option<Sweep>, late: Sweep) -> bool
    ensures { result ≡ is_quiet_between (reverse before.now) c early (Some late) }
{
    match early {
        Some(early) => is_before(last_placed(before, c), early.from)
            && !any_uses_between(before, c, early.to, late.from),
        None => false,
    }
}

// A connection was quiet for so many sweeps up to the last one.
fn is_quiet(before: &[Line], c: Key, sweeps: u64, last: Option<Sweep>) -> bool
    ensures { result ≡ is_quiet (reverse before.now) c sweeps last }
{
    match last {
        Some(last) => {
            if sweeps < last.number {
                is_quiet_between(
                    before,
                    c,
                    numbered_sweep(before, last.number - sweeps),
                    last,
                )
            } else {
                false
            }
        }
        None => false,
    }
}

// A connection may be retired at this tick.
fn may_retire(setup: &Setup, all: &[Line], before: &[Line], c: Key, tick: u64) -> bool
    ensures { result ≡ may_retire setup.now (endings_of (reverse all.now)) (reverse before.now) c tick }
{
    is_open(before, c)
        && (is_quiet(before, c, setup.shape.lives as u64, last_sweep(before))
            || (any_ends(all, c, last_retired(before, c), tick)
                && is_quiet(before, c, 1, last_sweep(before))))
}

/// A sweep is the next one, and a connection that is retired was open, and quiet. Any line of the whole list may tell of its end.
#[tactic(auto, unfolding(crate::specs::Retire::meets_retire))]
pub fn meets_retire(setup: &Setup, all: &[Line], before: &[Line], line: &Line) -> bool
    ensures { result ≡ meets_retire setup.now (endings_of (reverse all.now)) (reverse before.now) line.now }
{
    match *line {
        Line::Swept { number, at_ms, .. } => is_next_sweep(
            setup.shape.idle_ms,
            number,
            at_ms,
            last_sweep(before),
        ),
        Line::Retired { out, key } => may_retire(setup, all, before, key, out),
        _ => true,
    }
}
