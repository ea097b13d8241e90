ghost use Rattle.std.specs.Prelude.{◌≡◌, ◌≤◌, reverse};
ghost use Rattle.std.specs.List.{list_any};
ghost use Rattle.sr_law.specs.Order.{refused_past, refuses_next, meets_order};

use crate::groups::keeps_groups;
use crate::ranges::in_range;
use crate::rising::rises;
use crate::takings::keeps_places;
use crate::{Line, Setup};

// The line refused this change, or a later one.
fn refused_past(change: u32, line: &Line) -> bool
    ensures { result ≡ refused_past change line.now }
{
    match *line {
        Line::Refused {
            change: refused,
            ..
        } => change <= refused,
        _ => false,
    }
}

// Some line refused this change, or a later one.
fn any_refused_past(before: &[Line], change: u32) -> bool
    ensures { result ≡ list_any (refused_past change) (reverse before.now) }
{
    before.iter().rev().any(|line| refused_past(change, line))
}

/// Changes are refused in the script's order.
pub fn refuses_next(before: &[Line], line: &Line) -> bool
    ensures { result ≡ refuses_next (reverse before.now) line.now }
{
    match *line {
        Line::Refused { change, .. } => !any_refused_past(before, change),
        _ => true,
    }
}

// A line stands in order.
#[tactic(auto, unfolding(crate::specs::Order::meets_order))]
pub(crate) fn meets_order(setup: &Setup, before: &[Line], line: &Line) -> bool
    requires buckets { 1 ≤ setup.now.shape.buckets }
    requires rows { 4 ≤ setup.now.shape.full_rows }
    ensures { result ≡ meets_order setup.now (reverse before.now) line.now }
{
    keeps_groups(setup, before, line)
        && rises(before, line)
        && in_range(setup, line)
        && keeps_places(before, line)
        && refuses_next(before, line)
}
