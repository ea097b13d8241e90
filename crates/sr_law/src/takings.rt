ghost use Rattle.std.specs.Prelude.{◌≡◌, reverse, option_map};
ghost use Rattle.sr_law.specs.Taken.{now_placed, taken_after, taken, may_place, may_clear, keeps_places};

use crate::{Line, Taking};
use sr_base::{Key, Place};

// Who has a place after one line more.
fn taken_after(line: &Line, place: Place, older: Option<Taking>) -> Option<Taking>
    ensures { result ≡ taken_after line.now place older }
{
    match *line {
        Line::Reserved { key, place: at, .. } => if at.same(place) {
            Some(Taking { key, placed: false })
        } else {
            older
        },
        Line::Placed { place: at, .. } => if at.same(place) {
            now_placed(older)
        } else {
            older
        },
        Line::Cleared { place: at, .. } => if at.same(place) { None } else { older },
        _ => older,
    }
}

// It was placed since it was taken.
fn now_placed(older: Option<Taking>) -> Option<Taking>
    ensures { result ≡ option_map now_placed older }
{
    match older {
        Some(taking) => Some(Taking {
            key: taking.key,
            placed: true,
        }),
        None => None,
    }
}

// Who has a place.
#[tactic(auto, using(crate::proofs::Newest::newest_more))]
fn taken(before: &[Line], place: Place) -> Option<Taking>
    ensures { result ≡ taken (reverse before.now) place }
{
    let mut holder = None;
    for line in before {
        holder = taken_after(line, place, holder);
    }
    holder
}

// The place is taken by this key, and wasn't placed since.
fn may_place(key: Key, taking: Option<Taking>) -> bool
    ensures { result ≡ may_place key taking }
{
    match taking {
        Some(taking) => taking.key.same(key) && !taking.placed,
        None => false,
    }
}

// The place is taken by this key.
fn may_clear(key: Key, taking: Option<Taking>) -> bool
    ensures { result ≡ may_clear key taking }
{
    match taking {
        Some(taking) => taking.key.same(key),
        None => false,
    }
}

/// A place is reserved where nobody has it, and placed, once, and cleared by the key that has it.
#[tactic(auto, unfolding(crate::specs::Taken::keeps_places))]
pub fn keeps_places(before: &[Line], line: &Line) -> bool
    ensures { result ≡ keeps_places (reverse before.now) line.now }
{
    match *line {
        Line::Reserved { place, .. } => taken(before, place).is_none(),
        Line::Placed { key, place, .. } => may_place(key, taken(before, place)),
        Line::Cleared { key, place, .. } => may_clear(key, taken(before, place)),
        _ => true,
    }
}
