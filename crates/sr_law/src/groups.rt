ghost use Rattle.std.specs.Prelude.{◌≡◌, reverse, length};
ghost use Rattle.std.specs.List.{list_any};
ghost use Rattle.sr_law.specs.Groups.{is_opening_give, after_gives, is_of_update, last_of_update, was_given, was_recorded, was_held, was_switched, is_over, goes_on, was_given_past, names_next_pool, keeps_groups};

use crate::givings::{has_pool, last_given};
use crate::{Line, Pools, Setup};

/// The line gives this virtual address its first pool.
pub fn is_opening_give(number: usize, line: &Line) -> bool
    ensures { result ≡ is_opening_give number line.now }
{
    match *line {
        Line::Given {
            out,
            vip,
            version,
            pool,
        } => {
            0 < out
                && out - 1 == number as u64
                && vip as usize == number
                && version.number() == 0
                && pool == 1
        }
        _ => false,
    }
}

/// A line of an update.
pub fn is_of_update(line: &Line) -> bool
    ensures { result ≡ is_of_update line.now }
{
    match line {
        Line::Given { .. } => true,
        Line::Recorded { .. } => true,
        Line::Hold { .. } => true,
        Line::Switched { .. } => true,
        Line::Finished { .. } => true,
        _ => false,
    }
}

// The last line of an update among the lines from the first one on.
#[tactic(auto, using(crate::proofs::Newest::newest_more))]
fn last_of_update(lines: &[Line]) -> Option<Line>
    ensures { result ≡ last_of_update (reverse lines.now) }
{
    let mut last = None;
    for line in lines {
        if is_of_update(line) {
            last = Some(*line);
        }
    }
    last
}

// The update gave this virtual address a pool last.
fn was_given(vip: u8, last: Option<Line>) -> bool
    ensures { result ≡ was_given vip last }
{
    match last {
        Some(Line::Given { vip: to, .. }) => to == vip,
        _ => false,
    }
}

// The update began to record for this virtual address last.
fn was_recorded(vip: u8, last: Option<Line>) -> bool
    ensures { result ≡ was_recorded vip last }
{
    match last {
        Some(Line::Recorded { vip: to, .. }) => to == vip,
        _ => false,
    }
}

// The update began to hold openers of this virtual address last.
fn was_held(vip: u8, last: Option<Line>) -> bool
    ensures { result ≡ was_held vip last }
{
    match last {
        Some(Line::Hold { vip: to, .. }) => to == vip,
        _ => false,
    }
}

// The update switched this virtual address last.
fn was_switched(vip: u8, last: Option<Line>) -> bool
    ensures { result ≡ was_switched vip last }
{
    match last {
        Some(Line::Switched { vip: to, .. }) => to == vip,
        _ => false,
    }
}

// No update is under way.
fn is_over(last: Option<Line>) -> bool
    ensures { result ≡ is_over last }
{
    match last {
        None => true,
        Some(Line::Finished { .. }) => true,
        Some(_) => false,
    }
}

/// An update goes on as it must.
pub fn goes_on(last: Option<Line>, line: &Line) -> bool
    ensures { result ≡ goes_on last line.now }
{
    match *line {
        Line::Given { .. } => is_over(last),
        Line::Recorded { vip, .. } => was_given(vip, last),
        Line::Hold { vip, .. } => was_recorded(vip, last),
        Line::Switched { vip, .. } => was_held(vip, last),
        Line::Finished { vip, .. } => was_switched(vip, last),
        _ => true,
    }
}

// The virtual address was given this pool or one of a greater number.
fn was_given_past(vip: u8, pool: u64, line: &Line) -> bool
    ensures { result ≡ was_given_past vip pool line.now }
{
    match *line {
        Line::Given {
            vip: to,
            pool: given,
            ..
        } => to == vip && pool <= given,
        _ => false,
    }
}

// Some line gave the virtual address this pool or one of a greater number.
fn any_given_past(before: &[Line], vip: u8, pool: u64) -> bool
    ensures { result ≡ list_any (was_given_past vip pool) (reverse before.now) }
{
    before
        .iter()
        .rev()
        .any(|line| was_given_past(vip, pool, line))
}

/// A pool that is given exists and comes after those before; the one that is switched to is the last given.
pub fn names_next_pool(pools: &Pools, before: &[Line], line: &Line) -> bool
    ensures { result ≡ names_next_pool pools.now (reverse before.now) line.now }
{
    match *line {
        Line::Given { vip, pool, .. } => pools.of(vip, pool).is_some()
            && !any_given_past(before, vip, pool),
        Line::Switched { vip, pool, .. } => has_pool(last_given(before, vip), pool),
        _ => true,
    }
}

// The last line of an update among the lines after the first ones.
fn last_after_gives(vips: usize, before: &[Line]) -> Option<Line>
    ensures { result ≡ last_of_update (after_gives vips (reverse before.now)) }
{
    if vips <= before.len() {
        last_of_update(&before[vips..])
    } else {
        None
    }
}

// The first lines give every virtual address its first pool, and after them each update goes on as it must.
#[tactic(auto, unfolding(crate::specs::Groups::keeps_groups))]
pub(crate) fn keeps_groups(setup: &Setup, before: &[Line], line: &Line) -> bool
    ensures { result ≡ keeps_groups setup.now (reverse before.now) line.now }
{
    let vips = setup.pools.vips();
    let goes = if before.len() < vips {
        is_opening_give(before.len(), line)
    } else {
        goes_on(last_after_gives(vips, before), line)
    };
    goes && names_next_pool(&setup.pools, before, line)
}
