ghost use Rattle.std.specs.Prelude.{◌≡◌, ◌==◌, ◌≤◌, reverse};
ghost use Rattle.std.specs.List.{list_any};
ghost use Rattle.sr_hash.specs.Uses.{bloom_places_of};
ghost use Rattle.sr_law.specs.Held.{records, recorded_giving, sets_place, is_set, in_filter, may_transit};

use crate::givings::{has_pool, last_given};
use crate::holding::is_unfinished;
use crate::{Giving, Line, Verdict};
use sr_base::{Key, Kind, Shape};
use sr_hash::bloom_places;

// The line begins to record openers of this virtual address.
fn records(vip: u8, line: &Line) -> bool
    ensures { result ≡ records vip line.now }
{
    match *line {
        Line::Recorded { vip: to, .. } => to == vip,
        _ => false,
    }
}

// Some line begins to record.
fn any_records(before: &[Line], vip: u8) -> bool
    ensures { result ≡ list_any (records vip) (reverse before.now) }
{
    before.iter().rev().any(|line| records(vip, line))
}

// What the virtual address was last given before its last Recorded line.
#[tactic(auto, using(crate::proofs::Newest::newest_more))]
fn recorded_giving(before: &[Line], vip: u8) -> Option<Giving>
    ensures { result ≡ recorded_giving (reverse before.now) vip }
{
    let mut giving = None;
    for i in 0..before.len() {
        if records(vip, &before[i]) {
            giving = last_given(&before[..i], vip);
        }
    }
    giving
}

// One of the key's filter places is this one.
fn has_place(bits: u32, key: Key, place: u32) -> bool
    requires { 1 ≤ bits }
    ensures { result ≡ list_any (λ p. p == place) (bloom_places_of key bits) }
{
    let [a, b, c] = bloom_places(key, bits);
    a == place || (b == place || c == place)
}

// The line is of an opener that was sent to another pool than this one, and so may have set this filter place.
fn sets_place(bits: u32, vip: u8, giving: &Option<Giving>, place: u32, line: &Line) -> bool
    requires { 1 ≤ bits }
    ensures { result ≡ sets_place bits vip giving.now place line.now }
{
    match *line {
        Line::Packet {
            key,
            kind: Kind::Opener,
            verdict: Verdict::To { pool, .. },
            ..
        } => { key.vip == vip && !has_pool(*giving, pool) && has_place(bits, key, place) }
        _ => false,
    }
}

// Some line since the last Recorded line of the virtual address may have set this filter place.
#[tactic(auto, using(crate::proofs::Newest::newest_more))]
fn is_set(bits: u32, vip: u8, giving: &Option<Giving>, place: u32, before: &[Line]) -> bool
    requires { 1 ≤ bits }
    ensures { result ≡ is_set bits vip giving.now place (reverse before.now) }
{
    let mut set = false;
    for line in before {
        let sets = sets_place(bits, vip, giving, place, line);
        if records(vip, line) {
            set = false;
        } else if sets {
            set = true;
        }
    }
    set
}

// Each filter place of the key may have been set.
fn in_filter(shape: &Shape, before: &[Line], c: Key) -> bool
    requires { 1 ≤ shape.now.filter_bits }
    ensures { result ≡ in_filter shape.now (reverse before.now) c }
{
    let bits = shape.filter_bits;
    let giving = recorded_giving(before, c.vip);
    let [first, second, third] = bloom_places(c, bits);
    let is_first = is_set(bits, c.vip, &giving, first, before);
    let is_second = is_set(bits, c.vip, &giving, second, before);
    let is_third = is_set(bits, c.vip, &giving, third, before);
    is_first && is_second && is_third
}

// An update wasn't finished before the start of the opener, and the filter may hold it.
#[tactic(auto, unfolding(crate::specs::Held::may_transit))]
pub(crate) fn may_transit(shape: &Shape, before: &[Line], c: Key, start: u64) -> bool
    requires { 1 ≤ shape.now.filter_bits }
    ensures { result ≡ may_transit shape.now (reverse before.now) c start }
{
    is_unfinished(before, c.vip, start) && any_records(before, c.vip) && in_filter(shape, before, c)
}
