ghost use Rattle.std.specs.Prelude.{◌≡◌, reverse};
ghost use Rattle.sr_law.specs.Retire.{last_sweep, numbered_sweep, sweep_by};
ghost use Rattle.sr_law.specs.Settled.{sweep_time, sweeps_settled};

use sr_law::{Line, Setup, Sweep};

// The sweep that a line tells of.
fn sweep_by(line: &Line) -> Option<Sweep>
    ensures { result ≡ sweep_by line.now }
{
    match *line {
        Line::Swept {
            number,
            from,
            to,
            at_ms,
        } => Some(Sweep {
            number,
            from,
            to,
            at_ms,
        }),
        _ => None,
    }
}

// The last sweep.
#[tactic(auto, using(sr_law::proofs::Newest::newest_more))]
pub(crate) fn last_sweep(lines: &[Line]) -> Option<Sweep>
    ensures { result ≡ last_sweep (reverse lines.now) }
{
    let mut last = None;
    for line in lines {
        if let Some(sweep) = sweep_by(line) {
            last = Some(sweep);
        }
    }
    last
}

// The sweep of this number.
#[tactic(auto, using(sr_law::proofs::Newest::newest_more))]
pub(crate) fn numbered_sweep(lines: &[Line], number: u64) -> Option<Sweep>
    ensures { result ≡ numbered_sweep (reverse lines.now) number }
{
    let mut last = None;
    for line in lines {
        if let Some(sweep) = sweep_by(line) {
            if sweep.number == number {
                last = Some(sweep);
            }
        }
    }
    last
}

// The time of the last sweep, or 0.
fn sweep_time(sweep: Option<Sweep>) -> u64
    ensures { result ≡ sweep_time sweep }
{
    match sweep {
        Some(sweep) => sweep.at_ms,
        None => 0,
    }
}

// No sweep is due.
pub(crate) fn sweeps_settled(setup: &Setup, clock: Option<u64>, lines: &[Line]) -> bool
    ensures { result ≡ sweeps_settled setup.now clock (reverse lines.now) }
{
    match clock {
        Some(clock) => {
            let last = sweep_time(last_sweep(lines));
            clock < last || clock - last < setup.shape.idle_ms
        }
        None => true,
    }
}
