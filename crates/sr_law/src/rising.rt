ghost use Rattle.std.specs.Prelude.{◌≡◌, reverse};
ghost use Rattle.std.specs.List.{list_any};
ghost use Rattle.sr_law.specs.Rising.{after_last, has_two_ticks, is_in_time, share_tick, has_new_ticks, was_in_pipe, was_controlling, one_by_one, rises};

use crate::Line;

/// A line comes after the one before it.
pub fn after_last(before: &[Line], line: &Line) -> bool
    ensures { result ≡ after_last (reverse before.now) line.now }
{
    match before.iter().rev().next() {
        Some(last) => last.out() < line.out(),
        None => true,
    }
}

// A packet's line and a sweep's have two ticks.
fn has_two_ticks(line: &Line) -> bool
    ensures { result ≡ has_two_ticks line.now }
{
    match line {
        Line::Packet { .. } => true,
        Line::Swept { .. } => true,
        _ => false,
    }
}

/// Ticks begin at 1, and the ticks of a line rise.
pub fn is_in_time(line: &Line) -> bool
    ensures { result ≡ is_in_time line.now }
{
    1 <= line.start()
        && if has_two_ticks(line) {
            line.start() < line.out()
        } else {
            line.start() <= line.out()
        }
}

/// Two lines have a tick in common.
pub fn share_tick(a: &Line, b: &Line) -> bool
    ensures { result ≡ share_tick a.now b.now }
{
    (a.out() == b.out() || a.out() == b.start()) || (a.start() == b.out() || a.start() == b.start())
}

// Some line before has a tick in common with this one.
fn shares_tick(before: &[Line], line: &Line) -> bool
    ensures { result ≡ list_any (share_tick line.now) (reverse before.now) }
{
    before.iter().rev().any(|earlier| share_tick(line, earlier))
}

/// A packet's line that was out at this tick of its pipe or later.
pub fn was_in_pipe(pipe: u8, tick: u64, line: &Line) -> bool
    ensures { result ≡ was_in_pipe pipe tick line.now }
{
    match *line {
        Line::Packet { out, pipe: at, .. } => at == pipe && tick <= out,
        _ => false,
    }
}

// Some packet was in this pipe at this tick or later.
fn any_in_pipe(before: &[Line], pipe: u8, tick: u64) -> bool
    ensures { result ≡ list_any (was_in_pipe pipe tick) (reverse before.now) }
{
    before
        .iter()
        .rev()
        .any(|line| was_in_pipe(pipe, tick, line))
}

/// A controller's line that was out at this tick or later.
pub fn was_controlling(tick: u64, line: &Line) -> bool
    ensures { result ≡ was_controlling tick line.now }
{
    line.is_controller() && tick <= line.out()
}

// The controller wrote a line at this tick or later.
fn any_controlling(before: &[Line], tick: u64) -> bool
    ensures { result ≡ list_any (was_controlling tick) (reverse before.now) }
{
    before.iter().rev().any(|line| was_controlling(tick, line))
}

// Each actor does one thing after another.
fn one_by_one(before: &[Line], line: &Line) -> bool
    ensures { result ≡ one_by_one (reverse before.now) line.now }
{
    match *line {
        Line::Packet { entered, pipe, .. } => !any_in_pipe(before, pipe, entered),
        Line::Swept { from, .. } => !any_controlling(before, from),
        _ => true,
    }
}

// The ticks of a line rise.
#[tactic(auto, unfolding(crate::specs::Rising::rises))]
pub(crate) fn rises(before: &[Line], line: &Line) -> bool
    ensures { result ≡ rises (reverse before.now) line.now }
{
    after_last(before, line)
        && is_in_time(line)
        && !shares_tick(before, line)
        && one_by_one(before, line)
}
