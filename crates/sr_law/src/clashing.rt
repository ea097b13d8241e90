ghost use Rattle.std.specs.Prelude.{◌≡◌, ◌≤◌, reverse};
ghost use Rattle.std.specs.List.{list_any};
ghost use Rattle.sr_law.specs.Held.{matches_entry, is_between, clears_between, reserves_against, may_clash};

use crate::Line;
use crate::keys::clashes_in;
use sr_base::{Key, Place, Shape};

// A packet of this key matches the other key's entry at this place.
fn matches_entry(shape: &Shape, c: Key, key: Key, place: Place) -> bool
    requires buckets { 1 ≤ shape.now.buckets }
    requires bits { shape.now.digest_bits ≤ 16 }
    ensures { result ≡ matches_entry shape.now c key place }
{
    match place {
        Place::Slot { way, .. } => clashes_in(shape, way, key, c),
        Place::Row { .. } => key.same(c),
    }
}

// Strictly between two ticks.
pub(crate) fn is_between(low: u64, high: u64, tick: u64) -> bool
    ensures { result ≡ is_between low high tick }
{
    low < tick && tick < high
}

// The entry of this key at this place was cleared between two ticks.
fn clears_between(key: Key, place: Place, low: u64, high: u64, line: &Line) -> bool
    ensures { result ≡ clears_between key place low high line.now }
{
    match *line {
        Line::Cleared {
            out,
            key: cleared,
            place: at,
        } => cleared.same(key) && at.same(place) && is_between(low, high, out),
        _ => false,
    }
}

// Some line clears it between two ticks.
fn any_clears_between(before: &[Line], key: Key, place: Place, low: u64, high: u64) -> bool
    ensures { result ≡ list_any (clears_between key place low high) (reverse before.now) }
{
    before
        .iter()
        .rev()
        .any(|line| clears_between(key, place, low, high, line))
}

// The line reserves a place for an entry that this key matches, and the entry isn't cleared before this tick.
fn reserves_against(shape: &Shape, before: &[Line], c: Key, start: u64, line: &Line) -> bool
    requires buckets { 1 ≤ shape.now.buckets }
    requires bits { shape.now.digest_bits ≤ 16 }
    ensures { result ≡ reserves_against shape.now (reverse before.now) c start line.now }
{
    match *line {
        Line::Reserved { out, key, place } => matches_entry(shape, c, key, place)
            && !any_clears_between(before, key, place, out, start),
        _ => false,
    }
}

// An entry that the opener matches may have stood in the tables at its start.
pub(crate) fn may_clash(shape: &Shape, before: &[Line], c: Key, start: u64) -> bool
    requires buckets { 1 ≤ shape.now.buckets }
    requires bits { shape.now.digest_bits ≤ 16 }
    ensures { result ≡ may_clash shape.now (reverse before.now) c start }
{
    before
        .iter()
        .rev()
        .any(|line| reserves_against(shape, before, c, start, line))
}
