//! Whose packets are taken for whose.

ghost use Rattle.std.specs.Prelude.{◌≡◌};
ghost use Rattle.sr_shadow.specs.Plan.{clashes_at, is_mistaken};

use crate::Entry;
use sr_base::{Key, Layout, Place, layout_ranges};
use sr_hash::clashes;

/// Whether the key's packets are taken for those of the entry: it is another key's, and its Live place is a slot in whose way the two clash.
pub fn is_mistaken(layout: &Layout, key: Key, entry: &Entry) -> bool
    ensures { result ≡ is_mistaken layout.now.shape key entry.now }
{
    !key.same(entry.key) && clashes_at(layout, key, entry)
}

// Whether the entry's Live place is a slot of a way in which its key clashes with this one.
fn clashes_at(layout: &Layout, key: Key, entry: &Entry) -> bool
    ensures { result ≡ clashes_at layout.now.shape key entry.now.key entry.now.place }
{
    layout_ranges(layout);
    match entry.place {
        Some(Place::Slot { way, .. }) => {
            (way == 1 || way == 2) && clashes(layout.shape(), way, key, entry.key)
        }
        Some(Place::Row { .. }) => false,
        None => false,
    }
}
