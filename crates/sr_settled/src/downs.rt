ghost use Rattle.std.specs.Prelude.{◌≡◌, count_by, reverse};
ghost use Rattle.std.specs.List.{list_all};
ghost use Rattle.sr_law.specs.Server.{is_number};
ghost use Rattle.sr_law.specs.Settled.{downs_of, downs_settled, due_downs, is_number_as_often};
ghost use Rattle.sr_settled.specs.Downs.{is_made, taken_by, taken_down, takes, takes_down};

use crate::due::is_due;
use sr_base::{Change, What};
use sr_law::Line;

// The server that a change takes down, if it is due.
fn taken_by(clock: Option<u64>, change: &Change) -> Option<u32>
    ensures { result ≡ taken_by clock change.now }
{
    match &change.what {
        What::Give { .. } => None,
        What::TakeDown { server } => if is_due(clock, change.at_ms) {
            Some(*server)
        } else {
            None
        },
    }
}

// The server that a line takes down.
fn taken_down(line: &Line) -> Option<u32>
    ensures { result ≡ taken_down line.now }
{
    match *line {
        Line::TakenDown { server, .. } => Some(server),
        _ => None,
    }
}

// There is one, and it is this one.
fn is_number(server: Option<u32>, n: u32) -> bool
    ensures { result ≡ is_number server n }
{
    match server {
        Some(server) => server == n,
        None => false,
    }
}

// The change is due, and takes this server down.
fn takes(clock: Option<u64>, server: u32, change: &Change) -> bool
    ensures { result ≡ takes clock server change.now }
{
    is_number(taken_by(clock, change), server)
}

// The line takes it down.
fn takes_down(server: u32, line: &Line) -> bool
    ensures { result ≡ takes_down server line.now }
{
    is_number(taken_down(line), server)
}

// How many due changes take this server down.
fn count_due(clock: Option<u64>, changes: &[Change], server: u32) -> usize
    ensures { result ≡ count_by (takes clock server) changes.now }
{
    changes
        .iter()
        .filter(|change| takes(clock, server, *change))
        .count()
}

// How many lines do.
fn count_made(lines: &[Line], server: u32) -> usize
    ensures { result ≡ count_by (takes_down server) (reverse lines.now) }
{
    lines
        .iter()
        .rev()
        .filter(|line| takes_down(server, *line))
        .count()
}

// The lines take this server down as often as the due changes do.
fn is_made_as_often(clock: Option<u64>, changes: &[Change], lines: &[Line], server: u32) -> bool
    ensures { result ≡ is_number_as_often (due_downs clock changes.now) (downs_of (reverse lines.now)) server }
{
    count_due(clock, changes, server) == count_made(lines, server)
}

// So they do where there is one.
fn is_made(clock: Option<u64>, changes: &[Change], lines: &[Line], server: Option<u32>) -> bool
    ensures { result ≡ is_made clock changes.now (reverse lines.now) server }
{
    match server {
        Some(server) => is_made_as_often(clock, changes, lines, server),
        None => true,
    }
}

// Each server that is due to be taken down was, as often.
fn all_due_made(clock: Option<u64>, changes: &[Change], lines: &[Line]) -> bool
    ensures { result ≡ list_all (λ change. is_made clock changes.now (reverse lines.now) (taken_by clock change)) changes.now }
{
    changes.iter().all(|change| is_made(clock, changes, lines, taken_by(clock, change)))
}

// Each that was taken down was due, as often.
fn all_made_due(clock: Option<u64>, changes: &[Change], lines: &[Line]) -> bool
    ensures { result ≡ list_all (λ line. is_made clock changes.now (reverse lines.now) (taken_down line)) (reverse lines.now) }
{
    lines
        .iter()
        .rev()
        .all(|line| is_made(clock, changes, lines, taken_down(line)))
}

// Each server that is due to be taken down was, once, and no other.
pub(crate) fn downs_settled(clock: Option<u64>, changes: &[Change], lines: &[Line]) -> bool
    ensures { result ≡ downs_settled clock changes.now (reverse lines.now) }
{
    let due = all_due_made(clock, changes, lines);
    let made = all_made_due(clock, changes, lines);
    due && made
}
