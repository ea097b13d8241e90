ghost use Rattle.std.specs.Prelude.{◌≡◌, reverse};
ghost use Rattle.sr_law.specs.Retire.{sweep_by, last_sweep, numbered_sweep, is_next_sweep};

use crate::{Line, Sweep};

// The sweep that a line tells of.
fn sweep_by(line: &Line) -> Option<Sweep>
    ensures { result ≡ sweep_by line.now }
{
    match *line {
        Line::Swept {
            number,
            from,
            to,
            at_ms,
        } => Some(Sweep {
            number,
            from,
            to,
            at_ms,
        }),
        _ => None,
    }
}

// The last sweep.
#[tactic(auto, using(crate::proofs::Newest::newest_more))]
pub(crate) fn last_sweep(before: &[Line]) -> Option<Sweep>
    ensures { result ≡ last_sweep (reverse before.now) }
{
    let mut last = None;
    for line in before {
        if let Some(sweep) = sweep_by(line) {
            last = Some(sweep);
        }
    }
    last
}

// The sweep of this number.
#[tactic(auto, using(crate::proofs::Newest::newest_more))]
pub(crate) fn numbered_sweep(before: &[Line], number: u64) -> Option<Sweep>
    ensures { result ≡ numbered_sweep (reverse before.now) number }
{
    let mut last = None;
    for line in before {
        if let Some(sweep) = sweep_by(line) {
            if sweep.number == number {
                last = Some(sweep);
            }
        }
    }
    last
}

// A sweep has the next number, and comes no sooner than the idle time after the last one.
pub(crate) fn is_next_sweep(idle_ms: u64, number: u64, at_ms: u64, last: Option<Sweep>) -> bool
    ensures { result ≡ is_next_sweep idle_ms number at_ms last }
{
    match last {
        Some(last) => {
            0 < number
                && number - 1 == last.number
                && last.at_ms <= at_ms
                && idle_ms <= at_ms - last.at_ms
        }
        None => number == 1 && idle_ms <= at_ms,
    }
}
