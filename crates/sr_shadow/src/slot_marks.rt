ghost use Rattle.std.specs.Prelude.{◌≡◌, ◌+◌, ◌<◌, ◌≤◌, ◌∷◌, ◌++◌, ℕ, List, [], Option, find, length, drop, slice_get, OnOk};
ghost use Rattle.sr_shadow.specs.Entry.{is_pending, is_placed, may_retire};
ghost use Rattle.sr_shadow.specs.Roll.{entries_in, entry_found, passes, marks_room, Marked};
ghost use Rattle.sr_shadow.specs.declared.entry.Entry.{Entry as AnEntry};

use crate::Entry;
use sr_marks::Marks;
use std::alloc::{AllocError, Global};

// Which slots have an entry, one without a Live place, one with a Live place, one that may be retired, where a connection has so many lives.
#[derive(Drop)]
pub(crate) struct SlotMarks {
    pub(crate) lives: u8,
    pub(crate) filled: Marks,
    pub(crate) pending: Marks,
    pub(crate) placed: Marks,
    pub(crate) retirable: Marks,
}

impl SlotMarks {
    // Of no slot.
    pub(crate) fn new(alloc: Global, lives: u8) -> SlotMarks
        ensures marked { Marked result [] }
        ensures lives { result.lives ≡ lives }
    {
        SlotMarks {
            lives,
            filled: Marks::new(alloc),
            pending: Marks::new(alloc),
            placed: Marks::new(alloc),
            retirable: Marks::new(alloc),
        }
    }

    // Makes room for so many more slots.
    pub(crate) fn reserve(&mut self, alloc: Global, additional: usize) -> Result<(), AllocError>
        ensures filled { self.new.filled.marks ≡ self.old.filled.marks }
        ensures pending { self.new.pending.marks ≡ self.old.pending.marks }
        ensures placed { self.new.placed.marks ≡ self.old.placed.marks }
        ensures retirable { self.new.retirable.marks ≡ self.old.retirable.marks }
        ensures lives { self.new.lives ≡ self.old.lives }
        ensures more { marks_room self.old ≤ marks_room self.new }
        ensures room { OnOk result (additional ≤ marks_room self.new) }
    {
        self.filled.reserve(alloc, additional)?;
        self.pending.reserve(alloc, additional)?;
        self.placed.reserve(alloc, additional)?;
        self.retirable.reserve(alloc, additional)
    }

    // One slot more.
    pub(crate) fn push(&mut self, slot: &Option<Entry>)
        requires { 0 < marks_room self.old }
        ensures marked { (slots : List (ℕ × Option AnEntry)) (number : ℕ) → Marked self.old slots → Marked self.new (slots ++ (number, slot.now) ∷ []) }
        ensures room { marks_room self.old ≤ marks_room self.new + 1 }
        ensures lives { self.new.lives ≡ self.old.lives }
    {
        self.filled.push(slot.is_some());
        self.pending.push(is_pending(slot));
        self.placed.push(is_placed(slot));
        self.retirable.push(may_retire(self.lives, slot));
    }

    // Something else in a slot.
    pub(crate) fn set(&mut self, at: usize, slot: &Option<Entry>)
        requires { (slots : List (ℕ × Option AnEntry)) × Marked self.old slots × (at < length slots) }
        ensures marked { (before after : List (ℕ × Option AnEntry)) (s : ℕ × Option AnEntry) (number : ℕ) → at ≡ length before
            → Marked self.old (before ++ s ∷ after)
            → Marked self.new (before ++ (number, slot.now) ∷ after) }
        ensures room { marks_room self.new ≡ marks_room self.old }
        ensures lives { self.new.lives ≡ self.old.lives }
    {
        self.filled.set(at, slot.is_some());
        self.pending.set(at, is_pending(slot));
        self.placed.set(at, is_placed(slot));
        self.retirable.set(at, may_retire(self.lives, slot));
    }

    // How many slots have an entry.
    pub(crate) fn count(&self) -> usize
        ensures { (slots : List (ℕ × Option AnEntry)) → Marked self.now slots → result ≡ length (entries_in slots) }
    {
        self.filled.count()
    }

    // Where the n-th entry is, from 0.
    pub(crate) fn nth(&self, n: usize) -> Option<usize>
        ensures { (slots : List (ℕ × Option AnEntry)) → Marked self.now slots → slice_get (entries_in slots) n ≡ entry_found result slots }
    {
        self.filled.nth(n)
    }

    // Where the first entry without a Live place is, from a slot on.
    pub(crate) fn next_pending(&self, from: usize) -> Option<usize>
        ensures { (slots : List (ℕ × Option AnEntry)) → Marked self.now slots → find is_pending (entries_in (drop from slots)) ≡ entry_found result slots }
    {
        self.pending.next(from)
    }

    // Where the first entry with a Live place is, from a slot on.
    pub(crate) fn next_placed(&self, from: usize) -> Option<usize>
        ensures { (slots : List (ℕ × Option AnEntry)) → Marked self.now slots → find is_placed (entries_in (drop from slots)) ≡ entry_found result slots }
    {
        self.placed.next(from)
    }

    // Where the first entry that may be retired is, from a slot on.
    pub(crate) fn next_retirable(&self, from: usize) -> Option<usize>
        ensures { (slots : List (ℕ × Option AnEntry)) → Marked self.now slots → find (may_retire self.now.lives) (entries_in (drop from slots)) ≡ entry_found result slots }
    {
        self.retirable.next(from)
    }
}

// Whether the slot has an entry without a Live place.
fn is_pending(slot: &Option<Entry>) -> bool
    ensures { result ≡ passes is_pending slot.now }
{
    match slot {
        Some(entry) => entry.place.is_none(),
        None => false,
    }
}

// Whether the slot has an entry with a Live place.
fn is_placed(slot: &Option<Entry>) -> bool
    ensures { result ≡ passes is_placed slot.now }
{
    match slot {
        Some(entry) => entry.place.is_some(),
        None => false,
    }
}

// Whether the slot has an entry that may be retired after so many lives.
fn may_retire(lives: u8, slot: &Option<Entry>) -> bool
    ensures { result ≡ passes (may_retire lives) slot.now }
{
    match slot {
        Some(entry) => entry.may_retire(lives),
        None => false,
    }
}
