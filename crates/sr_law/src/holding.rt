ghost use Rattle.std.specs.Prelude.{◌≡◌, reverse};
ghost use Rattle.std.specs.List.{list_any};
ghost use Rattle.sr_law.specs.Held.{hold_tick, last_hold, switches_between, finishes_between, not_switched, not_finished, may_hold};

use crate::Line;
use crate::clashing::is_between;

// The tick of a line that lets no opener of this virtual address through.
fn hold_tick(line: &Line, vip: u8) -> Option<u64>
    ensures { result ≡ hold_tick line.now vip }
{
    match *line {
        Line::Hold { out, vip: held } => if held == vip { Some(out) } else { None },
        _ => None,
    }
}

// The tick of the last such line.
#[tactic(auto, using(crate::proofs::Newest::newest_more))]
pub(crate) fn last_hold(before: &[Line], vip: u8) -> Option<u64>
    ensures { result ≡ last_hold (reverse before.now) vip }
{
    let mut last = None;
    for line in before {
        if let Some(tick) = hold_tick(line, vip) {
            last = Some(tick);
        }
    }
    last
}

// The virtual address was switched between two ticks.
fn switches_between(vip: u8, low: u64, high: u64, line: &Line) -> bool
    ensures { result ≡ switches_between vip low high line.now }
{
    match *line {
        Line::Switched { out, vip: to, .. } => to == vip && is_between(low, high, out),
        _ => false,
    }
}

// Its update was finished between two ticks.
fn finishes_between(vip: u8, low: u64, high: u64, line: &Line) -> bool
    ensures { result ≡ finishes_between vip low high line.now }
{
    match *line {
        Line::Finished { out, vip: to } => to == vip && is_between(low, high, out),
        _ => false,
    }
}

// Some line switches it between two ticks.
fn any_switches_between(before: &[Line], vip: u8, low: u64, high: u64) -> bool
    ensures { result ≡ list_any (switches_between vip low high) (reverse before.now) }
{
    before
        .iter()
        .rev()
        .any(|line| switches_between(vip, low, high, line))
}

// Some line finishes its update between two ticks.
fn any_finishes_between(before: &[Line], vip: u8, low: u64, high: u64) -> bool
    ensures { result ≡ list_any (finishes_between vip low high) (reverse before.now) }
{
    before
        .iter()
        .rev()
        .any(|line| finishes_between(vip, low, high, line))
}

// An update holds the virtual address, and the switch wasn't made before the start.
pub(crate) fn may_hold(before: &[Line], vip: u8, start: u64) -> bool
    ensures { result ≡ may_hold (reverse before.now) vip start }
{
    match last_hold(before, vip) {
        Some(tick) => !any_switches_between(before, vip, tick, start),
        None => false,
    }
}

// An update of the virtual address wasn't finished before the start.
pub(crate) fn is_unfinished(before: &[Line], vip: u8, start: u64) -> bool
    ensures { result ≡ not_finished (reverse before.now) vip start (last_hold (reverse before.now) vip) }
{
    match last_hold(before, vip) {
        Some(tick) => !any_finishes_between(before, vip, tick, start),
        None => false,
    }
}
