ghost use Rattle.std.specs.Prelude.{◌≡◌, ◌+◌, ◌^◌, ◌<◌, ◌≤◌, ◌&&◌, ◌∷◌, ◌++◌, ℕ, List, [], Option, Some, None, true, false, is_some, nat_le, nat_lt, find, filter, length, drop, slice_get, option_copied, IfOk, OnOk};
ghost use Rattle.std.specs.List.Sorted.{IsPartitionPoint};
ghost use Rattle.sr_shadow.specs.Entry.{is_pending, is_placed, may_retire};
ghost use Rattle.sr_shadow.specs.Roll.{entries_in, entry_at, HasEntry, HasNumber, Replaces, kept, Rising, Marked};
ghost use Rattle.sr_shadow.specs.declared.entry.Entry.{Entry as AnEntry};

use crate::Entry;
use crate::slot_marks::SlotMarks;
use indexmap::IndexMap;
use std::alloc::{AllocError, Global};
use std::marker::Model;

// The entries under their numbers. An entry that is out leaves its slot behind, empty.
type Slots = IndexMap<u64, Option<Entry>>;

// The entries in the order of taking. Each has the number of those that were ever taken before it.
#[derive(Drop)]
pub(crate) struct Roll {
    slots: Slots,
    marks: SlotMarks,
    taken: u64,
}

impl Model for Roll {
    ghost use Rattle.std.specs.Prelude.{min};
    ghost use Rattle.indexmap.specs.IndexMap.{spare};
    ghost use Rattle.sr_shadow.specs.Roll.{RollView, IsRoll, entries_in, marks_room};

    ghost Value = { RollView };

    ghost view = { λ r. record { entries = entries_in r.slots.entries; taken = r.taken; room = min (spare r.slots) (marks_room r.marks); lives = r.marks.lives } };

    ghost invariant = { λ r. IsRoll r.slots.entries r.marks r.taken };
}

impl Roll {
    // Without an entry, where a connection has so many lives.
    pub(crate) fn new(alloc: Global, lives: u8) -> Roll
        ensures entries { result.entries ≡ [] }
        ensures taken { result.taken ≡ 0 }
        ensures lives { result.lives ≡ lives }
    {
        Roll {
            slots: IndexMap::new(alloc),
            marks: SlotMarks::new(alloc, lives),
            taken: 0,
        }
    }

    // How many entries were ever taken.
    pub(crate) fn taken(&self) -> u64
        ensures { result ≡ self.now.taken }
    {
        self.taken
    }

    // How many are in.
    pub(crate) fn len(&self) -> usize
        ensures { result ≡ length self.now.entries }
    {
        self.marks.count()
    }

    // Makes room for so many more entries. Where more than half of the slots are empty they are given up. Room that there is stays.
    pub(crate) fn reserve(&mut self, alloc: Global, additional: usize) -> Result<(), AllocError>
        ensures entries { self.new.entries ≡ self.old.entries }
        ensures taken { self.new.taken ≡ self.old.taken }
        ensures kept { self.old.room ≤ self.new.room }
        ensures lives { self.new.lives ≡ self.old.lives }
        ensures room { OnOk result (additional ≤ self.new.room) }
    {
        if self.slots.len() / 2 > self.marks.count() {
            self.compact(alloc, additional)?;
        }
        self.slots.reserve(additional)?;
        self.marks.reserve(alloc, additional)
    }

    // Gives up the empty slots. The marks, which are made anew, have room for so many more entries, and for those that there
    // was room for.
    fn compact(&mut self, alloc: Global, additional: usize) -> Result<(), AllocError>
        ensures entries { self.new.entries ≡ self.old.entries }
        ensures taken { self.new.taken ≡ self.old.taken }
        ensures kept { self.old.room ≤ self.new.room }
        ensures lives { self.new.lives ≡ self.old.lives }
    {
        let mut marks = marks_of(alloc, &self.slots, self.marks.lives)?;
        marks.reserve(
            alloc,
            additional.max(self.slots.capacity() - self.slots.len()),
        )?;
        self.slots.retain(
            |_number: &u64, slot: &mut Option<Entry>| -> bool
                ensures { (result ≡ is_some slot.old) × (slot.new ≡ slot.old) }
            { slot.is_some() },
        );
        self.marks = marks;
        Ok(())
    }

    // A new last entry.
    pub(crate) fn push(&mut self, entry: Entry)
        requires room { 0 < self.old.room }
        requires number { entry.taken ≡ self.old.taken }
        requires fits { self.old.taken + 1 < 2 ^ 64 }
        ensures entries { self.new.entries ≡ self.old.entries ++ entry ∷ [] }
        ensures taken { self.new.taken ≡ self.old.taken + 1 }
        ensures room { self.old.room ≤ self.new.room + 1 }
        ensures lives { self.new.lives ≡ self.old.lives }
    {
        let slot = Some(entry);
        self.marks.push(&slot);
        match self.slots.insert(self.taken, slot) {
            Ok(_) => self.taken += 1,
            Err(_) => unreachable!(),
        }
    }

    // The entry of this number.
    pub(crate) fn get(&self, number: u64) -> Option<&Entry>
        ensures { (front back : List AnEntry) (e : AnEntry) → self.now.entries ≡ front ++ e ∷ back → e.taken ≡ number → option_copied result ≡ Some e }
    {
        match self.slots.get(&number) {
            Some(slot) => slot.as_ref(),
            None => None,
        }
    }

    // Something else in the place of the entry of this number.
    pub(crate) fn put(&mut self, number: u64, slot: Option<Entry>)
        requires has { HasEntry self.old.entries number }
        requires number { HasNumber number slot }
        ensures entries { Replaces self.old.entries self.new.entries number slot }
        ensures taken { self.new.taken ≡ self.old.taken }
        ensures room { self.old.room ≤ self.new.room }
        ensures lives { self.new.lives ≡ self.old.lives }
    {
        match self.slots.get_index_of(&number) {
            Some(at) => {
                self.marks.set(at, &slot);
                self.slots[at] = slot;
            }
            None => unreachable!(),
        }
    }

    // The n-th entry, from 0.
    pub(crate) fn at(&self, n: usize) -> Option<&Entry>
        ensures { option_copied result ≡ slice_get self.now.entries n }
    {
        match self.marks.nth(n) {
            Some(at) => entry_at(&self.slots, at),
            None => None,
        }
    }

    // The first entry without a Live place, of those taken from a number on.
    pub(crate) fn first_pending(&self, number: u64) -> Option<&Entry>
        ensures { option_copied result ≡ find (λ e. nat_le number e.taken && is_pending e) self.now.entries }
    {
        match self.marks.next_pending(slot_from(&self.slots, number)) {
            Some(at) => entry_at(&self.slots, at),
            None => None,
        }
    }

    // The first entry with a Live place, of those taken from a number on.
    pub(crate) fn first_placed(&self, number: u64) -> Option<&Entry>
        ensures { option_copied result ≡ find (λ e. nat_le number e.taken && is_placed e) self.now.entries }
    {
        match self.marks.next_placed(slot_from(&self.slots, number)) {
            Some(at) => entry_at(&self.slots, at),
            None => None,
        }
    }

    // The first entry that may be retired.
    pub(crate) fn first_retirable(&self) -> Option<&Entry>
        ensures { option_copied result ≡ find (may_retire self.now.lives) self.now.entries }
    {
        match self.marks.next_retirable(0) {
            Some(at) => entry_at(&self.slots, at),
            None => None,
        }
    }
}

// The entry in a slot.
fn entry_at(slots: &Slots, at: usize) -> Option<&Entry>
    ensures { option_copied result ≡ entry_at at slots.now.entries }
{
    match slots.get_index(at) {
        Some((_, slot)) => slot.as_ref(),
        None => None,
    }
}

// Where the slots with this number and greater ones begin.
fn slot_from(slots: &Slots, number: u64) -> usize
    ensures { (low high : ℕ) → Rising low slots.now.entries high → IsPartitionPoint (λ s. nat_lt s.0 number ≡ true) (λ s. nat_lt s.0 number ≡ false) slots.now.entries result }
{
    slots.partition_point(
        |n: &u64, _slot: &Option<Entry>| -> bool
            ensures { result ≡ nat_lt n.now number }
        { *n < number },
    )
}

// The marks of the slots that have an entry.
fn marks_of(alloc: Global, slots: &Slots, lives: u8) -> Result<SlotMarks, AllocError>
    ensures marked { IfOk result (λ s. Marked s (filter (λ s. is_some s.1) slots.now.entries)) }
    ensures lives { IfOk result (λ s. s.lives ≡ lives) }
{
    let mut marks = SlotMarks::new(alloc, lives);
    for at in 0..slots.len() {
        keep(alloc, slots, at, &mut marks)?;
    }
    Ok(marks)
}

// One slot more, where it has an entry.
fn keep(alloc: Global, slots: &Slots, at: usize, marks: &mut SlotMarks) -> Result<(), AllocError>
    ensures marked { OnOk result (Marked marks.old (kept at slots.now.entries) → Marked marks.new (kept (at + 1) slots.now.entries)) }
    ensures lives { marks.new.lives ≡ marks.old.lives }
{
    match entry_at(slots, at) {
        Some(entry) => {
            marks.reserve(alloc, 1)?;
            marks.push(&Some(*entry));
            Ok(())
        }
        None => Ok(()),
    }
}
