ghost use Rattle.std.specs.Prelude.{◌≡◌, List, Some, reverse};
ghost use Rattle.sr_law.specs.Retire.{endings_of, is_before, is_quiet, is_quiet_between, last_sweep, may_retire};
ghost use Rattle.sr_law.specs.declared.line.Line.{Line as ALine};
ghost use Rattle.sr_audit.specs.Audit.{Tells};
ghost use Rattle.sr_audit.specs.Endings.{TellsEndings};
ghost use Rattle.sr_audit.specs.Lately.{Falls};
ghost use Rattle.sr_audit.specs.Used.{SweepsRise};

use crate::audit::Audit;
use crate::endings::Endings;
use sr_base::Key;
use sr_law::{Line, Setup, Sweep};

// There is a tick, and it is before this one.
fn is_before(last: Option<u64>, tick: u64) -> bool
    ensures { result ≡ is_before last tick }
{
    match last {
        Some(n) => n < tick,
        None => false,
    }
}

// From one sweep to the last one a connection was placed and sent nothing.
fn is_quiet_between(
    audit: &Audit,
    setup: &Setup,
    before: &[Line],
    c: Key,
    early: Option<Sweep>,
    late: Sweep,
) -> bool
    requires falls { Falls (reverse before.now) }
    requires rise { SweepsRise (reverse before.now) }
    requires tells { Tells setup.now audit.now (reverse before.now) }
    requires last { last_sweep (reverse before.now) ≡ Some late }
    ensures { result ≡ is_quiet_between (reverse before.now) c early (Some late) }
{
    match early {
        Some(early) => is_before(audit.placed.last(c), early.from)
            && !audit.used.is_used_since(c, early.to),
        None => false,
    }
}

// A connection was quiet for so many sweeps up to the last one.
fn is_quiet(audit: &Audit, setup: &Setup, before: &[Line], c: Key, sweeps: u64) -> bool
    requires falls { Falls (reverse before.now) }
    requires rise { SweepsRise (reverse before.now) }
    requires tells { Tells setup.now audit.now (reverse before.now) }
    ensures { result ≡ is_quiet (reverse before.now) c sweeps (last_sweep (reverse before.now)) }
{
    match audit.sweep.last() {
        Some(last) => {
            if sweeps < last.number {
                let early = audit.sweeps.numbered(last.number - sweeps);
                is_quiet_between(audit, setup, before, c, early, last)
            } else {
                false
            }
        }
        None => false,
    }
}

// A connection may be retired at this tick.
pub(crate) fn may_retire(
    audit: &Audit,
    endings: &Endings,
    setup: &Setup,
    before: &[Line],
    c: Key,
    tick: u64,
) -> bool
    requires falls { Falls (reverse before.now) }
    requires rise { SweepsRise (reverse before.now) }
    requires tells { Tells setup.now audit.now (reverse before.now) }
    ensures { (all : List ALine) → TellsEndings endings.now all tick
        → result ≡ may_retire setup.now (endings_of all) (reverse before.now) c tick }
{
    audit.connections.opening(c).is_some()
        && (is_quiet(audit, setup, before, c, setup.shape.lives as u64)
            || (endings.end(c, audit.retired.last(c)) && is_quiet(audit, setup, before, c, 1)))
}
