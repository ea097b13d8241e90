ghost use Rattle.std.specs.Prelude.{◌≡◌, ◌≤◌, IfSome, Some, true, find, option_copied};
ghost use Rattle.sr_shadow.specs.Book.{entry_for, holder_of};
ghost use Rattle.sr_shadow.specs.Plan.{entry_at, first_move, first_usable, is_free, move_at, move_from, move_of, move_plan, other_way, slot_then, slots_of, target, with_moved};
ghost use Rattle.sr_shadow.specs.declared.entry.Entry.{Entry as AnEntry};
ghost use Rattle.sr_shadow.specs.Moves.{IsMover, NonePlaced, if_at, is_nobody_else};
ghost use Rattle.sr_shadow.specs.Entry.{is_slot};

use crate::clear::is_clear_but;
use crate::slots::first_free;
use sr_base::{Key, Layout, Place, layout_ranges};
use sr_hash::clashes;
use sr_shadow::{Entry, IndexedBook, Plan, indexed_book_rules, key_slots, other_way, slots_of};

// The first move that makes room for the key.
pub(crate) fn first_move(indexed: &IndexedBook, layout: &Layout, key: Key) -> Option<Plan>
    requires made { indexed.now.layout ≡ layout.now }
    requires unplaced { NonePlaced key indexed.now.book.entries }
    ensures { result ≡ move_plan layout.now.shape indexed.now.book.entries key }
{
    let slots = key_slots(layout, key);
    for slot in slots.as_slice() {
        if let Some(plan) = move_from(indexed, layout, key, *slot) {
            return Some(plan);
        }
    }
    None
}

// The move of the entry in a slot.
fn move_from(indexed: &IndexedBook, layout: &Layout, key: Key, slot: Place) -> Option<Plan>
    requires made { indexed.now.layout ≡ layout.now }
    requires unplaced { NonePlaced key indexed.now.book.entries }
    ensures { result ≡ move_from layout.now.shape indexed.now.book.entries key slot }
{
    match slot {
        Place::Slot { way, .. } => match indexed.holder(slot) {
            Some(holder) => move_away(indexed, layout, key, holder, way, slot),
            None => None,
        },
        Place::Row { .. } => None,
    }
}

// The move of the entry that holds a slot of this way. One whose other bucket is full, as most are in a full table, is passed over before
// anything else is asked.
fn move_away(
    indexed: &IndexedBook,
    layout: &Layout,
    key: Key,
    holder: Key,
    way: u8,
    from: Place,
) -> Option<Plan>
    requires made { indexed.now.layout ≡ layout.now }
    requires unplaced { NonePlaced key indexed.now.book.entries }
    requires slot { is_slot from ≡ true }
    requires held { holder_of from indexed.now.book.entries ≡ Some holder }
    ensures { result ≡ move_at layout.now.shape indexed.now.book.entries key way from (entry_at from indexed.now.book.entries) }
{
    indexed_book_rules(indexed);
    let free = free_beyond(indexed, layout, way, holder)?;
    match placed_at(indexed, from, holder) {
        Some(entry) => move_of(indexed, layout, key, entry, way, from, free),
        None => None,
    }
}

// The first free slot of the other bucket of a key that has a slot of this way.
fn free_beyond(indexed: &IndexedBook, layout: &Layout, way: u8, key: Key) -> Option<Place>
    ensures { result ≡ find (is_free indexed.now.book.entries) (slots_of layout.now.shape (other_way way) key) }
{
    first_free(indexed, &slots_of(layout, other_way(way), key))
}

// The entry of the key that holds a place, where it is its Live place.
fn placed_at(indexed: &IndexedBook, place: Place, key: Key) -> Option<&Entry>
    requires { holder_of place indexed.now.book.entries ≡ Some key }
    ensures value { option_copied result ≡ entry_at place indexed.now.book.entries }
    ensures own { (e : AnEntry) → option_copied result ≡ Some e → entry_for e.key indexed.now.book.entries ≡ Some e }
    ensures holder { (e : AnEntry) → option_copied result ≡ Some e → e.key ≡ key }
{
    indexed_book_rules(indexed);
    match indexed.get(key) {
        Some(entry) => if_at(place, entry),
        None => None,
    }
}

// The entry, where this is its Live place.
fn if_at(place: Place, entry: &Entry) -> Option<&Entry>
    ensures { option_copied result ≡ if_at place (Some entry.now) }
{
    if entry.is_at(place) {
        Some(entry)
    } else {
        None
    }
}

// The move of an entry away from its slot, of this way.
fn move_of(
    indexed: &IndexedBook,
    layout: &Layout,
    key: Key,
    entry: &Entry,
    way: u8,
    from: Place,
    free: Place,
) -> Option<Plan>
    requires made { indexed.now.layout ≡ layout.now }
    requires unplaced { NonePlaced key indexed.now.book.entries }
    requires mover { IsMover key entry.now indexed.now.book.entries }
    requires free { find (is_free indexed.now.book.entries) (slots_of layout.now.shape (other_way way) entry.now.key) ≡ Some free }
    ensures { result ≡ move_of layout.now.shape indexed.now.book.entries key entry.now.key way from }
{
    let to = target(indexed, layout, key, entry, other_way(way), free)?;
    let then = slot_then(indexed, layout, key, entry, to)?;
    if is_clear_but(indexed, layout, key, entry.key) {
        Some(Plan::Move {
            key: entry.key,
            from,
            to,
            then,
        })
    } else {
        None
    }
}

// The first usable slot of the entry's bucket of a way, where the key that is planned counts as registered: the first free one, where it is usable.
#[tactic(auto, using(sr_shadow::proofs::Moving::target_slot))]
fn target(
    indexed: &IndexedBook,
    layout: &Layout,
    key: Key,
    entry: &Entry,
    way: u8,
    free: Place,
) -> Option<Place>
    requires made { indexed.now.layout ≡ layout.now }
    requires unplaced { NonePlaced key indexed.now.book.entries }
    requires mover { IsMover key entry.now indexed.now.book.entries }
    requires way { (1 ≤ way) × (way ≤ 2) }
    requires free { find (is_free indexed.now.book.entries) (slots_of layout.now.shape way entry.now.key) ≡ Some free }
    ensures value { result ≡ target layout.now.shape indexed.now.book.entries key entry.now.key way }
    ensures slot { IfSome result (λ to. is_slot to ≡ true) }
{
    layout_ranges(layout);
    if indexed.clashing(way, entry.key) || clashes(layout.shape(), way, entry.key, key) {
        None
    } else {
        Some(free)
    }
}

// The key's first usable slot with the entry at another place.
fn slot_then(
    indexed: &IndexedBook,
    layout: &Layout,
    key: Key,
    entry: &Entry,
    to: Place,
) -> Option<Place>
    requires made { indexed.now.layout ≡ layout.now }
    requires mover { IsMover key entry.now indexed.now.book.entries }
    requires slot { is_slot to ≡ true }
    ensures { result ≡ slot_then layout.now.shape indexed.now.book.entries key entry.now.key to }
{
    match slot_then_in(indexed, layout, 1, key, entry, to) {
        Some(place) => Some(place),
        None => slot_then_in(indexed, layout, 2, key, entry, to),
    }
}

// The first of a way.
#[tactic(auto, using(sr_shadow::proofs::Moving::then_slot))]
fn slot_then_in(
    indexed: &IndexedBook,
    layout: &Layout,
    way: u8,
    key: Key,
    entry: &Entry,
    to: Place,
) -> Option<Place>
    requires made { indexed.now.layout ≡ layout.now }
    requires way { (1 ≤ way) × (way ≤ 2) }
    requires mover { IsMover key entry.now indexed.now.book.entries }
    requires slot { is_slot to ≡ true }
    ensures { result ≡ first_usable layout.now.shape (with_moved entry.now.key to indexed.now.book.entries) key (slots_of layout.now.shape way key) }
{
    indexed_book_rules(indexed);
    let place = first_free_after(indexed, entry, to, &slots_of(layout, way, key))?;
    if indexed.clashing(way, key) {
        None
    } else {
        Some(place)
    }
}

// The first of these places that nobody holds with the entry at another place.
fn first_free_after(
    indexed: &IndexedBook,
    entry: &Entry,
    to: Place,
    places: &[Place],
) -> Option<Place>
    requires { entry_for entry.now.key indexed.now.book.entries ≡ Some entry.now }
    ensures { result ≡ find (is_free (with_moved entry.now.key to indexed.now.book.entries)) places.now }
{
    for place in places {
        if is_free_after(indexed, entry, to, *place) {
            return Some(*place);
        }
    }
    None
}

// Whether nobody holds a place with the entry at another place.
#[tactic(auto, using(sr_shadow::proofs::Moving::free_after))]
fn is_free_after(indexed: &IndexedBook, entry: &Entry, to: Place, place: Place) -> bool
    requires { entry_for entry.now.key indexed.now.book.entries ≡ Some entry.now }
    ensures { result ≡ is_free (with_moved entry.now.key to indexed.now.book.entries) place }
{
    indexed_book_rules(indexed);
    !place.same(to) && is_nobody_else(indexed.holder(place), entry.key)
}

// Whether that is nobody, or this key.
fn is_nobody_else(holder: Option<Key>, key: Key) -> bool
    ensures { result ≡ is_nobody_else holder key }
{
    match holder {
        None => true,
        Some(holder) => key.same(holder),
    }
}
