ghost use Rattle.std.specs.Prelude.{◌≡◌, ◌≤◌, find};
ghost use Rattle.sr_shadow.specs.Plan.{first_usable, is_free, key_slots, slots_of};

use sr_base::{Key, Layout, Place};
use sr_shadow::{IndexedBook, slots_of};

// Whether nobody holds a place.
pub(crate) fn is_free(indexed: &IndexedBook, place: Place) -> bool
    ensures { result ≡ is_free indexed.now.book.entries place }
{
    indexed.holder(place).is_none()
}

// The first of these places that nobody holds.
pub(crate) fn first_free(indexed: &IndexedBook, places: &[Place]) -> Option<Place>
    ensures { result ≡ find (is_free indexed.now.book.entries) places.now }
{
    for place in places {
        if is_free(indexed, *place) {
            return Some(*place);
        }
    }
    None
}

// The key's first usable slot in its bucket of a way. Whether there is a free one at all is a look at a table, and asked first.
#[tactic(auto, using(sr_shadow::proofs::Usable::usable_slot))]
fn usable_in(indexed: &IndexedBook, layout: &Layout, way: u8, key: Key) -> Option<Place>
    requires made { indexed.now.layout ≡ layout.now }
    requires way { (1 ≤ way) × (way ≤ 2) }
    ensures { result ≡ first_usable layout.now.shape indexed.now.book.entries key (slots_of layout.now.shape way key) }
{
    let place = first_free(indexed, &slots_of(layout, way, key))?;
    if indexed.clashing(way, key) {
        None
    } else {
        Some(place)
    }
}

// The key's first usable slot.
pub(crate) fn usable(indexed: &IndexedBook, layout: &Layout, key: Key) -> Option<Place>
    requires { indexed.now.layout ≡ layout.now }
    ensures { result ≡ first_usable layout.now.shape indexed.now.book.entries key (key_slots layout.now.shape key) }
{
    match usable_in(indexed, layout, 1, key) {
        Some(place) => Some(place),
        None => usable_in(indexed, layout, 2, key),
    }
}
