ghost use Rattle.std.specs.Prelude.{◌≡◌, ◌<◌, List, [], ◌∷◌, ◌++◌, length, cond, slice_index_or, None, IfOk, MatchOption};
ghost use Rattle.sr_base.specs.Place.{same_place};
ghost use Rattle.sr_base.specs.WordName.{HasPlace, entries_of, entry_number};
ghost use Rattle.sr_base.specs.declared.place.Place.{Place as APlace};
ghost use Rattle.sr_shadow.specs.Book.{holder_of, HeldOnce};
ghost use Rattle.sr_shadow.specs.Entry.{is_at, settled, left_other};
ghost use Rattle.sr_shadow.specs.Holders.{IsHolderTable, name_of};
ghost use Rattle.sr_shadow.specs.declared.entry.Entry.{Entry as AnEntry};

use crate::Entry;
use sr_base::{Key, Layout, Place, WordName, layout_ranges, words_stand_apart};
use std::alloc::{AllocError, Global};

// Who holds each place of a layout. It knows nothing of places that the layout doesn't have.
#[derive(Drop)]
pub(crate) struct Holders {
    table: Vec<Option<Key>>,
}

impl Holders {
    // Nobody holds a place.
    pub(crate) fn new(alloc: Global, layout: &Layout) -> Result<Holders, AllocError>
        ensures { IfOk result (λ h. IsHolderTable layout.now.shape h.table.items []) }
    {
        layout_ranges(layout);
        let shape = layout.shape();
        let places = 8 * shape.buckets as usize + shape.full_rows as usize;
        Ok(Holders {
            table: vec![in alloc; None; places]?,
        })
    }

    // Who holds a place, which the layout has: `cell` says so.
    pub(crate) fn get(&self, cell: usize) -> Option<Key>
        requires { cell < length self.now.table.items }
        ensures { result ≡ slice_index_or self.now.table.items cell None }
    {
        self.table[cell]
    }

    // The entry moves to a place that nobody held.
    pub(crate) fn settle(&mut self, layout: &Layout, entry: &Entry, place: Place)
        requires { length self.old.table.items ≡ entries_of layout.now.shape }
        ensures { (front back : List AnEntry) → HeldOnce (front ++ entry.now ∷ back) → entry.now.also ≡ None → holder_of place (front ++ entry.now ∷ back) ≡ None
            → IsHolderTable layout.now.shape self.old.table.items (front ++ entry.now ∷ back)
            → IsHolderTable layout.now.shape self.new.table.items (front ++ settled place entry.now ∷ back) }
    {
        self.put(layout, place, Some(entry.key));
    }

    // The entry gives up the place that it had before.
    pub(crate) fn leave(&mut self, layout: &Layout, entry: &Entry)
        requires { length self.old.table.items ≡ entries_of layout.now.shape }
        ensures left { (front back : List AnEntry) → HeldOnce (front ++ entry.now ∷ back)
            → IsHolderTable layout.now.shape self.old.table.items (front ++ entry.now ∷ back)
            → IsHolderTable layout.now.shape self.new.table.items (front ++ left_other entry.now ∷ back) }
        ensures size { length self.new.table.items ≡ length self.old.table.items }
    {
        self.vacate(layout, entry.also);
    }

    // The entry goes, and holds no place any more.
    pub(crate) fn free(&mut self, layout: &Layout, entry: &Entry)
        requires { length self.old.table.items ≡ entries_of layout.now.shape }
        ensures { (front back : List AnEntry) → HeldOnce (front ++ entry.now ∷ back)
            → IsHolderTable layout.now.shape self.old.table.items (front ++ entry.now ∷ back)
            → IsHolderTable layout.now.shape self.new.table.items (front ++ back) }
    {
        self.leave(layout, entry);
        self.depart(layout, entry);
    }

    // The entry, which has left its other place, goes from its Live place.
    fn depart(&mut self, layout: &Layout, entry: &Entry)
        requires { length self.old.table.items ≡ entries_of layout.now.shape }
        ensures { (front back : List AnEntry) → HeldOnce (front ++ entry.now ∷ back)
            → IsHolderTable layout.now.shape self.old.table.items (front ++ left_other entry.now ∷ back)
            → IsHolderTable layout.now.shape self.new.table.items (front ++ back) }
    {
        self.vacate(layout, entry.place);
    }

    // Nobody holds the place any more, if it is one.
    #[tactic(auto, using(crate::proofs::Places::held_alike))]
    fn vacate(&mut self, layout: &Layout, place: Option<Place>)
        requires { length self.old.table.items ≡ entries_of layout.now.shape }
        ensures held { (old new : List AnEntry) → ((other : APlace) → holder_of other new ≡ cond (is_at other place) None (holder_of other old))
            → IsHolderTable layout.now.shape self.old.table.items old
            → IsHolderTable layout.now.shape self.new.table.items new }
        ensures size { length self.new.table.items ≡ length self.old.table.items }
    {
        match place {
            Some(place) => self.put(layout, place, None),
            None => {}
        }
    }

    // Somebody or nobody holds a place from now on, and all else stays.
    fn put(&mut self, layout: &Layout, place: Place, holder: Option<Key>)
        requires { length self.old.table.items ≡ entries_of layout.now.shape }
        ensures held { (old new : List AnEntry) → ((other : APlace) → holder_of other new ≡ cond (same_place other place) holder (holder_of other old))
            → IsHolderTable layout.now.shape self.old.table.items old
            → IsHolderTable layout.now.shape self.new.table.items new }
        ensures size { length self.new.table.items ≡ length self.old.table.items }
    {
        words_stand_apart(layout);
        match cell(layout, place) {
            Some(at) => self.table[at] = holder,
            None => {}
        }
    }
}

// Where a place of the layout is in the table. None where the layout doesn't have the place.
#[tactic(auto, using(crate::proofs::Places::number_below))]
pub(crate) fn cell(layout: &Layout, place: Place) -> Option<usize>
    ensures { MatchOption result (¬ (HasPlace layout.now.shape place)) (λ at. HasPlace layout.now.shape place × (at ≡ entry_number layout.now.shape place) × (at < entries_of layout.now.shape)) }
{
    let name = name_of(place);
    if layout.has(name) {
        Some(layout.place(name))
    } else {
        None
    }
}

// The name of the word at a place.
fn name_of(place: Place) -> WordName
    ensures { result ≡ name_of place }
{
    match place {
        Place::Slot { way, bucket, cell } => WordName::Slot { way, bucket, cell },
        Place::Row { row } => WordName::Full { row },
    }
}
