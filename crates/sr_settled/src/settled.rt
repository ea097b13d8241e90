ghost use Rattle.std.specs.Prelude.{◌≡◌, ◌≤◌, None, IfOk, length};
ghost use Rattle.sr_base.specs.Limit.{limit_of};
ghost use Rattle.sr_law.specs.Settled.{is_settled, is_settled_waiting};
ghost use Rattle.sr_law.specs.Shaped.{IsShaped};

use crate::downs::downs_settled;
use crate::gives::gives_settled;
use crate::places::places_settled;
use crate::quiet::quiet_settled;
use crate::sweeps::{last_sweep, sweeps_settled};
use crate::update::update_settled;
use sr_base::Change;
use sr_law::{Line, Setup};
use std::alloc::{AllocError, Global};

// What holds at the end even while an update waits for a key that has no place.
#[tactic(auto, unfolding(sr_law::specs::Settled::is_settled_waiting))]
fn is_settled_waiting(
    alloc: Global,
    setup: &Setup,
    changes: &[Change],
    clock: Option<u64>,
    lines: &[Line],
) -> Result<bool, AllocError>
    requires shape { IsShaped setup.now.shape }
    requires vips { length setup.now.pools ≤ 16 }
    ensures { IfOk result (λ settled. settled ≡ is_settled_waiting setup.now changes.now clock lines.now) }
{
    let places = places_settled(alloc, setup, lines)?;
    let quiet = quiet_settled(alloc, setup, lines, last_sweep(lines))?;
    Ok(
        downs_settled(clock, changes, lines)
            && places
            && sweeps_settled(setup, clock, lines)
            && quiet,
    )
}

/// Whether a printed list is settled for these changes, in the script's order, and a clock, in milliseconds of capture time; None where no time
/// passed. An error comes only for want of memory.
#[tactic(auto, unfolding(sr_law::specs::Settled::is_settled))]
pub fn is_settled(
    alloc: Global,
    setup: &Setup,
    changes: &[Change],
    clock: Option<u64>,
    lines: &[Line],
) -> Result<bool, AllocError>
    requires { limit_of setup.now.shape (length setup.now.pools) setup.now.servers ≡ None }
    ensures { IfOk result (λ settled. settled ≡ is_settled setup.now changes.now clock lines.now) }
{
    let gives = gives_settled(alloc, setup, changes, clock, lines)?;
    let waiting = is_settled_waiting(alloc, setup, changes, clock, lines)?;
    Ok(gives && update_settled(setup, lines) && waiting)
}
