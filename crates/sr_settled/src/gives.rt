ghost use Rattle.std.specs.Prelude.{◌≡◌, ◌||◌, if◌then◌else◌, not, IfOk, reverse, [], length};
ghost use Rattle.sr_law.specs.Settled.{due_gives, gives_settled, is_given_next, is_refused_next, rest_of};
ghost use Rattle.sr_settled.specs.Gives.{is_change, is_next};

use crate::due::{Due, due_gives};
use crate::in_use::all_in_use;
use sr_base::Change;
use sr_law::{Line, Setup};
use std::alloc::{AllocError, Global};

// The next of the due changes gives this virtual address this pool.
fn is_given_next(dues: &[Due], vip: u8, pool: u64) -> bool
    ensures { result ≡ is_given_next dues.now vip pool }
{
    match dues.first() {
        Some(due) => due.vip == vip && due.pool == pool,
        None => false,
    }
}

// The next of the due changes has this position, and all versions of its virtual address are in use.
fn is_refused_next(setup: &Setup, before: &[Line], dues: &[Due], change: u32) -> bool
    ensures { result ≡ is_refused_next setup.now (reverse before.now) dues.now change }
{
    match dues.first() {
        Some(due) => due.position == change as usize
            && all_in_use(before, due.vip, setup.shape.versions),
        None => false,
    }
}

// The line of this number, from 0, tells that a change was made or refused.
fn is_change(setup: &Setup, number: usize, line: &Line) -> bool
    ensures { result ≡ is_change setup.now number line.now }
{
    match *line {
        Line::Given { .. } => setup.pools.vips() <= number,
        Line::Refused { .. } => true,
        _ => false,
    }
}

// It tells of the next of the due changes.
fn is_next(setup: &Setup, before: &[Line], dues: &[Due], line: &Line) -> bool
    ensures { result ≡ is_next setup.now (reverse before.now) dues.now line.now }
{
    match *line {
        Line::Given { vip, pool, .. } => is_given_next(dues, vip, pool),
        Line::Refused { change, .. } => is_refused_next(setup, before, dues, change),
        _ => true,
    }
}

// If it tells of a change, it is the next one.
fn may_tell(setup: &Setup, before: &[Line], dues: &[Due], line: &Line) -> bool
    ensures { result ≡ (not (is_change setup.now (length before.now) line.now) || is_next setup.now (reverse before.now) dues.now line.now) }
{
    !is_change(setup, before.len(), line) || is_next(setup, before, dues, line)
}

// The changes that are left after one of them was told, or none.
fn left_of<'a>(dues: &'a [Due], is_told: bool) -> &'a [Due]
    ensures { result.now ≡ (if is_told then rest_of dues.now else dues.now) }
{
    if is_told && !dues.is_empty() {
        &dues[1..]
    } else {
        dues
    }
}

// The lines tell of these changes, each once, in order.
fn tell_in_order(setup: &Setup, dues: &[Due], lines: &[Line]) -> bool
    ensures { result ≡ gives_settled setup.now [] dues.now lines.now }
{
    let mut left = dues;
    for i in 0..lines.len() {
        if !may_tell(setup, &lines[..i], left, &lines[i]) {
            return false;
        }
        left = left_of(left, is_change(setup, i, &lines[i]));
    }
    left.is_empty()
}

// The due changes that give a pool were made or refused, each once, in the script's order.
pub(crate) fn gives_settled(
    alloc: Global,
    setup: &Setup,
    changes: &[Change],
    clock: Option<u64>,
    lines: &[Line],
) -> Result<bool, AllocError>
    ensures { IfOk result (λ settled. settled ≡ gives_settled setup.now [] (due_gives clock [] 0 changes.now) lines.now) }
{
    let dues = due_gives(alloc, clock, changes)?;
    Ok(tell_in_order(setup, dues.as_slice(), lines))
}
