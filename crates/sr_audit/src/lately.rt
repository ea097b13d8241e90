ghost use Rattle.std.specs.Prelude.{◌≡◌, List, reverse};
ghost use Rattle.sr_law.specs.Rising.{rises};
ghost use Rattle.sr_audit.specs.Lately.{Falls, is_in_way, crosses, is_late, crosses_lately, was_before};

use sr_law::{Line, after_last, is_in_time, share_tick, was_controlling, was_in_pipe};

// The earlier line is of the same actor, and was out at this line's start or later.
fn is_in_way(line: &Line, earlier: &Line) -> bool
    ensures { result ≡ is_in_way line.now earlier.now }
{
    match *line {
        Line::Packet { entered, pipe, .. } => was_in_pipe(pipe, entered, earlier),
        Line::Swept { from, .. } => was_controlling(from, earlier),
        _ => false,
    }
}

// It is, or has a tick in common with this line.
fn crosses(line: &Line, earlier: &Line) -> bool
    ensures { result ≡ crosses line.now earlier.now }
{
    share_tick(line, earlier) || is_in_way(line, earlier)
}

// It was out at this line's start or later.
fn is_late(line: &Line, earlier: &Line) -> bool
    ensures { result ≡ is_late line.now earlier.now }
{
    line.start() <= earlier.out()
}

// Some line of the newest crosses this one: from the newest on, the first that was out before its start ends the search.
#[tactic(auto, unfolding(crate::specs::Lately::crosses_lately))]
fn crosses_lately(before: &[Line], line: &Line) -> bool
    ensures { result ≡ crosses_lately (reverse before.now) line.now }
{
    before
        .iter()
        .rev()
        .take_while(|earlier| is_late(line, earlier))
        .any(|earlier| crosses(line, earlier))
}

// The ticks of a line rise.
#[tactic(auto, using(crate::proofs::Falling::rises_lately))]
pub(crate) fn rises(before: &[Line], line: &Line) -> bool
    ensures { Falls (reverse before.now) → result ≡ rises (reverse before.now) line.now }
{
    after_last(before, line) && is_in_time(line) && !crosses_lately(before, line)
}

// There is a tick, and it is before this one.
pub(crate) fn was_before(earlier: Option<u64>, tick: u64) -> bool
    ensures { result ≡ was_before earlier tick }
{
    match earlier {
        Some(earlier) => earlier < tick,
        None => false,
    }
}
