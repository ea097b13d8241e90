ghost use Rattle.std.specs.Prelude.{◌≡◌, ◌≤◌, reverse};
ghost use Rattle.sr_law.specs.Held.{matches_entry, may_clash};
ghost use Rattle.sr_law.specs.Shaped.{IsShaped};
ghost use Rattle.sr_audit.specs.Clashes.{cells_of, clears_lately, clears_match, is_out_from, KeepsPlaces, matches_among, matches_holder, matches_now, rows_of};
ghost use Rattle.sr_audit.specs.Lately.{Falls};
ghost use Rattle.sr_audit.specs.Places.{holder, TellsPlaces};

use crate::places::Places;
use sr_base::{Key, Place, Shape};
use sr_hash::{bucket, clashes, group};
use sr_law::Line;

// A packet of this key matches the other key's entry at this place.
fn matches_entry(shape: &Shape, c: Key, key: Key, place: Place) -> bool
    requires { IsShaped shape.now }
    ensures { result ≡ matches_entry shape.now c key place }
{
    match place {
        Place::Slot { way, .. } => (way == 1 || way == 2) && clashes(shape, way, key, c),
        Place::Row { .. } => key.same(c),
    }
}

// It matches who has this place.
fn matches_holder(places: &Places, shape: &Shape, c: Key, place: Place) -> bool
    requires { IsShaped shape.now }
    ensures { result ≡ matches_holder shape.now c place (holder places.now place) }
{
    match places.holder(place) {
        Some(taking) => matches_entry(shape, c, taking.key, place),
        None => false,
    }
}

// It matches who has a cell of its bucket of this way.
fn matches_cell(places: &Places, shape: &Shape, c: Key, way: u8) -> bool
    requires shape { IsShaped shape.now }
    requires way { (1 ≤ way) × (way ≤ 2) }
    ensures { result ≡ matches_among shape.now (holder places.now) c (cells_of shape.now c way) }
{
    let bucket = bucket(way, c, shape.buckets);
    matches_holder(
        places,
        shape,
        c,
        Place::Slot {
            way,
            bucket,
            cell: 0,
        },
    ) || matches_holder(
        places,
        shape,
        c,
        Place::Slot {
            way,
            bucket,
            cell: 1,
        },
    ) || matches_holder(
        places,
        shape,
        c,
        Place::Slot {
            way,
            bucket,
            cell: 2,
        },
    ) || matches_holder(
        places,
        shape,
        c,
        Place::Slot {
            way,
            bucket,
            cell: 3,
        },
    )
}

// It matches who has a row of its group.
fn matches_row(places: &Places, shape: &Shape, c: Key) -> bool
    requires { IsShaped shape.now }
    ensures { result ≡ matches_among shape.now (holder places.now) c (rows_of shape.now c) }
{
    let first = 4 * group(c, shape.full_rows);
    matches_holder(places, shape, c, Place::Row { row: first })
        || matches_holder(places, shape, c, Place::Row { row: first + 1 })
        || matches_holder(places, shape, c, Place::Row { row: first + 2 })
        || matches_holder(places, shape, c, Place::Row { row: first + 3 })
}

// It matches an entry of the tables.
fn matches_now(places: &Places, shape: &Shape, c: Key) -> bool
    requires { IsShaped shape.now }
    ensures { result ≡ matches_now shape.now (holder places.now) c }
{
    matches_cell(places, shape, c, 1)
        || matches_cell(places, shape, c, 2)
        || matches_row(places, shape, c)
}

// The line clears an entry that it matches.
fn clears_match(shape: &Shape, c: Key, line: &Line) -> bool
    requires { IsShaped shape.now }
    ensures { result ≡ clears_match shape.now c line.now }
{
    match *line {
        Line::Cleared { key, place, .. } => matches_entry(shape, c, key, place),
        _ => false,
    }
}

// It was out at this tick or later.
fn is_out_from(start: u64, line: &Line) -> bool
    ensures { result ≡ is_out_from start line.now }
{
    start <= line.out()
}

// One of the newest lines clears such an entry: from the newest on, the first that was out before this tick ends the search.
#[tactic(auto, unfolding(crate::specs::Clashes::clears_lately))]
fn clears_lately(shape: &Shape, before: &[Line], c: Key, start: u64) -> bool
    requires { IsShaped shape.now }
    ensures { result ≡ clears_lately shape.now (reverse before.now) c start }
{
    before
        .iter()
        .rev()
        .take_while(|line| is_out_from(start, line))
        .any(|line| clears_match(shape, c, line))
}

// An entry that the opener of this key matches may have stood in the tables at its start.
pub(crate) fn may_clash(places: &Places, shape: &Shape, before: &[Line], c: Key, start: u64) -> bool
    requires shape { IsShaped shape.now }
    requires falls { Falls (reverse before.now) }
    requires kept { KeepsPlaces shape.now (reverse before.now) }
    requires tells { TellsPlaces places.now (reverse before.now) }
    ensures { result ≡ may_clash shape.now (reverse before.now) c start }
{
    let now = matches_now(places, shape, c);
    now || clears_lately(shape, before, c, start)
}
