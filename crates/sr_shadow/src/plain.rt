//! The first plan by its definition: every question is a walk over the whole list of entries. Slow, and the measure for every other body.

ghost use Rattle.std.specs.Prelude.{◌≡◌, ◌≤◌, cond, IfOk, Some, None};
ghost use Rattle.sr_base.specs.declared.place.Place.TheVariants.{Slot};
ghost use Rattle.sr_shadow.specs.Book.{holder_of, is_clashing, is_registered, is_rival};
ghost use Rattle.sr_shadow.specs.Entry.{fresh};
ghost use Rattle.sr_shadow.specs.Plan.{entry_at, first_plan, first_usable, is_clear_but, is_free, is_mistaken_but, key_slots, move_from, move_if_clear, move_plan, move_to, moved_if, row_plan, slot_plan, slot_then, slots_of, target, with_key, with_moved};

use crate::mistaking::is_mistaken;
use crate::own_places::{key_rows, key_slots, other_way};
use crate::{Entry, Plan, Shadow};
use sr_base::{Key, Layout, Place, Version, layout_ranges};
use sr_hash::{bucket, clashes};
use std::alloc::{AllocError, Global};

/// The plan of a key without a Live place, by walks over the list of entries of a book.
pub fn plan_plain(
    alloc: Global,
    shadow: &Shadow,
    layout: &Layout,
    key: Key,
) -> Result<Plan, AllocError>
    ensures { IfOk result (λ p. p ≡ first_plan layout.now.shape shadow.now.book.entries key) }
{
    let es = entries(alloc, shadow)?;
    Ok(plan_over(layout, &es, key))
}

/// The plan of a key without a Live place over a list of entries. It takes no memory.
#[tactic(auto, unfolding(crate::specs::Plan::first_plan))]
pub fn plan_over(layout: &Layout, es: &[Entry], key: Key) -> Plan
    ensures { result ≡ first_plan layout.now.shape es.now key }
{
    if let Some(plan) = slot_plan(layout, es, key) {
        return plan;
    }
    if let Some(plan) = move_plan(layout, es, key) {
        return plan;
    }
    match row_plan(layout, es, key) {
        Some(plan) => plan,
        None => Plan::NoRoom,
    }
}

// The list of entries.
fn entries(alloc: Global, shadow: &Shadow) -> Result<Vec<Entry>, AllocError>
    ensures { IfOk result (λ es. es.items ≡ shadow.now.book.entries) }
{
    let mut es = Vec::new(alloc);
    for i in 0..shadow.len() {
        match shadow.at(i) {
            Some(entry) => es.push(*entry)?,
            None => unreachable!(),
        }
    }
    Ok(es)
}

// ---- a slot

fn slot_plan(layout: &Layout, es: &[Entry], key: Key) -> Option<Plan>
    ensures { result ≡ slot_plan layout.now.shape es.now key }
{
    let place = usable(layout, es, key)?;
    if is_clear_but(layout, es, key, key) {
        Some(Plan::Slot { place })
    } else {
        None
    }
}

// The key's first usable slot.
fn usable(layout: &Layout, es: &[Entry], key: Key) -> Option<Place>
    ensures { result ≡ first_usable layout.now.shape es.now key (key_slots layout.now.shape key) }
{
    match usable_in(layout, es, key, 1) {
        Some(place) => Some(place),
        None => usable_in(layout, es, key, 2),
    }
}

// The first of a way.
fn usable_in(layout: &Layout, es: &[Entry], key: Key, way: u8) -> Option<Place>
    requires { (1 ≤ way) × (way ≤ 2) }
    ensures { result ≡ first_usable layout.now.shape es.now key (slots_of layout.now.shape way key) }
{
    layout_ranges(layout);
    let bucket = bucket(way, key, layout.shape().buckets);
    let alone = !is_clashing(layout, es, way, key);
    first_cell(
        way,
        bucket,
        is_free(es, slot(way, bucket, 0)) && alone,
        is_free(es, slot(way, bucket, 1)) && alone,
        is_free(es, slot(way, bucket, 2)) && alone,
        is_free(es, slot(way, bucket, 3)) && alone,
    )
}

fn slot(way: u8, bucket: u32, cell: u8) -> Place
    ensures { result ≡ Slot way bucket cell }
{
    Place::Slot { way, bucket, cell }
}

// The first slot of a bucket of which this holds.
fn first_cell(way: u8, bucket: u32, one: bool, two: bool, three: bool, four: bool) -> Option<Place>
    ensures { result ≡ cond one (Some (Slot way bucket 0)) (cond two (Some (Slot way bucket 1))
        (cond three (Some (Slot way bucket 2)) (cond four (Some (Slot way bucket 3)) None))) }
{
    if one {
        Some(slot(way, bucket, 0))
    } else if two {
        Some(slot(way, bucket, 1))
    } else if three {
        Some(slot(way, bucket, 2))
    } else if four {
        Some(slot(way, bucket, 3))
    } else {
        None
    }
}

// Whether nobody holds a place.
fn is_free(es: &[Entry], place: Place) -> bool
    ensures { result ≡ is_free es.now place }
{
    holder(es, place).is_none()
}

// Who holds it.
fn holder(es: &[Entry], place: Place) -> Option<Key>
    ensures { result ≡ holder_of place es.now }
{
    for entry in es {
        if entry.holds(place) {
            return Some(entry.key);
        }
    }
    None
}

/// Whether another registered key outside the table of full keys clashes with this one in a way, over a list of entries.
pub fn is_clashing(layout: &Layout, es: &[Entry], way: u8, key: Key) -> bool
    requires { (1 ≤ way) × (way ≤ 2) }
    ensures { result ≡ is_clashing layout.now.shape way key es.now }
{
    for entry in es {
        if is_rival(layout, way, key, entry) {
            return true;
        }
    }
    false
}

// Whether the entry is such a key's.
fn is_rival(layout: &Layout, way: u8, key: Key, entry: &Entry) -> bool
    requires { (1 ≤ way) × (way ≤ 2) }
    ensures { result ≡ is_rival layout.now.shape way key entry.now }
{
    layout_ranges(layout);
    let outside = match entry.place {
        Some(Place::Row { .. }) => false,
        _ => true,
    };
    outside && (!key.same(entry.key) && clashes(layout.shape(), way, key, entry.key))
}

// Whether the key's packets are taken for those of no entry but, perhaps, that of one other key.
fn is_clear_but(layout: &Layout, es: &[Entry], key: Key, other: Key) -> bool
    ensures { result ≡ is_clear_but layout.now.shape es.now key other }
{
    for entry in es {
        if is_mistaken_but(layout, key, other, entry) {
            return false;
        }
    }
    true
}

// Whether the key's packets are taken for those of this entry, which isn't the other key's.
fn is_mistaken_but(layout: &Layout, key: Key, other: Key, entry: &Entry) -> bool
    ensures { result ≡ is_mistaken_but layout.now.shape key other entry.now }
{
    !other.same(entry.key) && is_mistaken(layout, key, entry)
}

// ---- a move

fn move_plan(layout: &Layout, es: &[Entry], key: Key) -> Option<Plan>
    ensures { result ≡ move_plan layout.now.shape es.now key }
{
    let slots = key_slots(layout, key);
    for slot in slots.as_slice() {
        let plan = move_from(layout, es, key, *slot);
        if plan.is_some() {
            return plan;
        }
    }
    None
}

// The move of the entry in a slot.
fn move_from(layout: &Layout, es: &[Entry], key: Key, slot: Place) -> Option<Plan>
    ensures { result ≡ move_from layout.now.shape es.now key slot }
{
    match slot {
        Place::Slot { way, .. } => match entry_at(es, slot) {
            Some(entry) => move_of(layout, es, key, entry.key, other_way(way), slot),
            None => None,
        },
        Place::Row { .. } => None,
    }
}

/// The entry whose Live place this is, over a list of entries.
pub fn entry_at(es: &[Entry], place: Place) -> Option<Entry>
    ensures { result ≡ entry_at place es.now }
{
    for entry in es {
        if entry.is_at(place) {
            return Some(*entry);
        }
    }
    None
}

// The move of a key's entry from a slot to one of this way.
fn move_of(
    layout: &Layout,
    es: &[Entry],
    key: Key,
    other: Key,
    way: u8,
    from: Place,
) -> Option<Plan>
    requires { (1 ≤ way) × (way ≤ 2) }
    ensures { result ≡ move_to layout.now.shape es.now key other from (target layout.now.shape es.now key other way) }
{
    let to = target(layout, es, key, other, way)?;
    move_if_clear(
        is_clear_but(layout, es, key, other),
        other,
        from,
        to,
        slot_then(layout, es, key, other, to),
    )
}

fn move_if_clear(clear: bool, key: Key, from: Place, to: Place, last: Option<Place>) -> Option<Plan>
    ensures { result ≡ move_if_clear clear key from to last }
{
    let then = last?;
    if clear {
        Some(Plan::Move {
            key,
            from,
            to,
            then,
        })
    } else {
        None
    }
}

// ---- where the key is registered

// The first usable slot of another key of this way, where the key is registered.
fn target(layout: &Layout, es: &[Entry], key: Key, other: Key, way: u8) -> Option<Place>
    requires { (1 ≤ way) × (way ≤ 2) }
    ensures { result ≡ target layout.now.shape es.now key other way }
{
    layout_ranges(layout);
    let bucket = bucket(way, other, layout.shape().buckets);
    let alone = !is_clashing_with(layout, es, key, way, other);
    first_cell(
        way,
        bucket,
        is_free_with(es, key, slot(way, bucket, 0)) && alone,
        is_free_with(es, key, slot(way, bucket, 1)) && alone,
        is_free_with(es, key, slot(way, bucket, 2)) && alone,
        is_free_with(es, key, slot(way, bucket, 3)) && alone,
    )
}

// Whether nobody holds a place: a key that is only registered holds none.
#[tactic(auto, using(crate::proofs::Moving::counted_holder))]
fn is_free_with(es: &[Entry], key: Key, place: Place) -> bool
    ensures { result ≡ is_free (with_key key es.now) place }
{
    is_free(es, place)
}

/// Whether another registered key outside the table of full keys clashes with this one in a way, where one key more is registered.
#[tactic(auto, using(crate::proofs::Counting::counted_clashing))]
pub fn is_clashing_with(layout: &Layout, es: &[Entry], counted: Key, way: u8, key: Key) -> bool
    requires { (1 ≤ way) × (way ≤ 2) }
    ensures { result ≡ is_clashing layout.now.shape way key (with_key counted es.now) }
{
    is_clashing(layout, es, way, key)
        || (!is_registered(es, counted) && is_rival(layout, way, key, &fresh(counted)))
}

/// Whether the key has an entry, over a list of entries.
pub fn is_registered(es: &[Entry], key: Key) -> bool
    ensures { result ≡ is_registered key es.now }
{
    for entry in es {
        if key.same(entry.key) {
            return true;
        }
    }
    false
}

fn fresh(key: Key) -> Entry
    ensures { result ≡ fresh key 0 0 }
{
    Entry {
        key,
        version: Version::zero(),
        place: None,
        also: None,
        taken: 0,
        closed: false,
        quiet: None,
    }
}

// ---- where an entry has moved

// The key's first usable slot, where another key's entry has moved.
fn slot_then(layout: &Layout, es: &[Entry], key: Key, other: Key, to: Place) -> Option<Place>
    ensures { result ≡ slot_then layout.now.shape es.now key other to }
{
    match slot_then_in(layout, es, key, other, to, 1) {
        Some(place) => Some(place),
        None => slot_then_in(layout, es, key, other, to, 2),
    }
}

// The first of a way.
fn slot_then_in(
    layout: &Layout,
    es: &[Entry],
    key: Key,
    other: Key,
    to: Place,
    way: u8,
) -> Option<Place>
    requires { (1 ≤ way) × (way ≤ 2) }
    ensures { result ≡ first_usable layout.now.shape (with_moved other to es.now) key (slots_of layout.now.shape way key) }
{
    layout_ranges(layout);
    let bucket = bucket(way, key, layout.shape().buckets);
    let alone = !is_clashing_then(layout, es, other, to, way, key);
    first_cell(
        way,
        bucket,
        is_free_then(es, other, to, slot(way, bucket, 0)) && alone,
        is_free_then(es, other, to, slot(way, bucket, 1)) && alone,
        is_free_then(es, other, to, slot(way, bucket, 2)) && alone,
        is_free_then(es, other, to, slot(way, bucket, 3)) && alone,
    )
}

fn is_free_then(es: &[Entry], other: Key, to: Place, place: Place) -> bool
    ensures { result ≡ is_free (with_moved other to es.now) place }
{
    for entry in es {
        if moved_if(other, to, entry).holds(place) {
            return false;
        }
    }
    true
}

fn is_clashing_then(layout: &Layout, es: &[Entry], other: Key, to: Place, way: u8, key: Key) -> bool
    requires { (1 ≤ way) × (way ≤ 2) }
    ensures { result ≡ is_clashing layout.now.shape way key (with_moved other to es.now) }
{
    for entry in es {
        if is_rival(layout, way, key, &moved_if(other, to, entry)) {
            return true;
        }
    }
    false
}

// The entry, moved where it is the other key's: it holds the place alone.
fn moved_if(other: Key, to: Place, entry: &Entry) -> Entry
    ensures { result ≡ moved_if other to entry.now }
{
    let mut moved = *entry;
    if other.same(entry.key) {
        moved.place = Some(to);
        moved.also = None;
    }
    moved
}

// ---- a row

fn row_plan(layout: &Layout, es: &[Entry], key: Key) -> Option<Plan>
    ensures { result ≡ row_plan layout.now.shape es.now key }
{
    let [a, b, c, d] = key_rows(layout, key);
    if is_free(es, Place::Row { row: a }) {
        Some(Plan::FullKey { row: a })
    } else if is_free(es, Place::Row { row: b }) {
        Some(Plan::FullKey { row: b })
    } else if is_free(es, Place::Row { row: c }) {
        Some(Plan::FullKey { row: c })
    } else if is_free(es, Place::Row { row: d }) {
        Some(Plan::FullKey { row: d })
    } else {
        None
    }
}
