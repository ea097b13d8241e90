ghost use Rattle.std.specs.Prelude.{◌≡◌, ◌≤◌, reverse};
ghost use Rattle.sr_law.specs.Rows.{live_after, is_live, is_group_full};

use crate::Line;
use sr_base::{Key, Place, Shape};
use sr_hash::group;

// Whether an entry is live at a place after one line more.
fn live_after(line: &Line, place: Place, older: bool) -> bool
    ensures { result ≡ live_after line.now place older }
{
    match *line {
        Line::Placed { place: at, .. } => at.same(place) || older,
        Line::Cleared { place: at, .. } => !at.same(place) && older,
        _ => older,
    }
}

// An entry is live at a place.
#[tactic(auto, using(crate::proofs::Newest::newest_more))]
fn is_live(before: &[Line], place: Place) -> bool
    ensures { result ≡ is_live (reverse before.now) place }
{
    let mut live = false;
    for line in before {
        live = live_after(line, place, live);
    }
    live
}

// An entry is live in each row of the key's group.
#[tactic(auto, unfolding(crate::specs::Rows::is_group_full))]
pub(crate) fn is_group_full(shape: &Shape, before: &[Line], key: Key) -> bool
    requires { 4 ≤ shape.now.full_rows }
    ensures { result ≡ is_group_full shape.now (reverse before.now) key }
{
    let first = 4 * group(key, shape.full_rows);
    is_live(before, Place::Row { row: first })
        && is_live(before, Place::Row { row: first + 1 })
        && is_live(before, Place::Row { row: first + 2 })
        && is_live(before, Place::Row { row: first + 3 })
}
