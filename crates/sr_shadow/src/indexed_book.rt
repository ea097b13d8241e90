ghost use Rattle.std.specs.Prelude.{◌≡◌, ◌+◌, ◌<◌, ◌≤◌, ◌∷◌, ◌++◌, List, length, slice_get, count_by, true, false, option_copied, option_to_list, Option, Some, None, IfOk, OnOk};
ghost use Rattle.sr_shadow.specs.Book.{empty_book, entry_for, first_retirable, is_registered, pending_from, placed_from, holder_of, count_of, is_clashing, standing_of, most_taken, with_changed, with_closed, with_new, with_taken, with_settled, with_left, with_swept, with_retired, DistinctKeys, IsAlone, IsBook};
ghost use Rattle.sr_shadow.specs.Entry.{fresh};
ghost use Rattle.sr_shadow.specs.IndexedBook.{CanNote};
ghost use Rattle.sr_shadow.specs.Rivals.{is_outsider, own_outside};
ghost use Rattle.sr_shadow.specs.declared.entry.Entry.{Entry as AnEntry};

use crate::Entry;
use crate::entry::{outside, quiet_after};
use crate::holders::{Holders, cell};
use crate::key_numbers::KeyNumbers;
use crate::rivals::Rivals;
use crate::roll::Roll;
use crate::version_counts::VersionCounts;
use sr_base::{Key, Layout, Place, Version, key_ranges, layout_ranges};
use std::alloc::{AllocError, Global};
use std::marker::Model;

/// The book of a layout, with an index for each question, and its room counted: what `Ledger` and `Shadow` keep. A key may
/// settle in any place, also in one that the layout doesn't have. It takes memory in `new` and `reserve` alone. Every call takes
/// logarithmic time, but for two: `holder` of a place that the layout doesn't have looks at each entry, and `reserve` now and
/// then closes gaps, which retirements have paid for.
#[derive(Drop)]
pub struct IndexedBook {
    layout: Layout,
    roll: Roll,
    numbers: KeyNumbers,
    counts: VersionCounts,
    first: Rivals,
    second: Rivals,
    holders: Holders,
}

impl Model for IndexedBook {
    ghost use Rattle.std.specs.Prelude.{◌≡◌, min, nat_eq};
    ghost use Rattle.indexmap.specs.IndexMap.{get, spare};
    ghost use Rattle.sr_shadow.specs.IndexedBook.{IsIndexed};
    ghost use Rattle.sr_shadow.specs.Ledger.{LedgerView};

    ghost Value = { LedgerView };

    ghost view = { λ s. record {
      layout = s.layout;
      book = record { entries = s.roll.entries; taken = s.roll.taken };
      room = min s.roll.room (min (spare s.numbers.map) (min (spare s.first.map) (spare s.second.map)));
    } };

    ghost invariant = { λ s. IsIndexed s.layout s.roll.entries s.roll.taken (get nat_eq s.numbers.map) s.counts (get nat_eq s.first.map) (get nat_eq s.second.map) s.holders.table.items
        × (s.roll.lives ≡ s.layout.shape.lives) };
}

impl IndexedBook {
    /// The empty book of a layout.
    pub fn new(alloc: Global, layout: &Layout) -> Result<IndexedBook, AllocError>
        ensures layout { IfOk result (λ s. s.layout ≡ layout.now) }
        ensures book { IfOk result (λ s. s.book ≡ empty_book) }
    {
        let counts = VersionCounts::new(alloc)?;
        let holders = Holders::new(alloc, layout)?;
        Ok(IndexedBook {
            layout: *layout,
            roll: Roll::new(alloc, layout.shape().lives),
            numbers: KeyNumbers::new(alloc),
            counts,
            first: Rivals::new(alloc),
            second: Rivals::new(alloc),
            holders,
        })
    }

    /// Makes room for at least so many more entries. Room that there is stays.
    pub fn reserve(&mut self, alloc: Global, entries: usize) -> Result<(), AllocError>
        ensures layout { self.new.layout ≡ self.old.layout }
        ensures book { self.new.book ≡ self.old.book }
        ensures room { OnOk result (entries ≤ self.new.room) }
        ensures kept { self.old.room ≤ self.new.room }
    {
        self.roll.reserve(alloc, entries)?;
        self.numbers.reserve(entries)?;
        self.first.reserve(entries)?;
        self.second.reserve(entries)
    }

    /// The number that the next new entry gets: how many entries were ever taken.
    pub fn taken(&self) -> u64
        ensures { result ≡ self.now.book.taken }
    {
        self.roll.taken()
    }

    /// How many keys are registered.
    pub fn len(&self) -> usize
        ensures { result ≡ length self.now.book.entries }
    {
        self.roll.len()
    }

    /// The i-th entry in the order of taking, from 0.
    pub fn at(&self, i: usize) -> Option<&Entry>
        ensures { option_copied result ≡ slice_get self.now.book.entries i }
    {
        self.roll.at(i)
    }

    /// The first entry without a Live place, of those taken from this number on.
    pub fn first_pending(&self, number: u64) -> Option<&Entry>
        ensures { option_copied result ≡ pending_from number self.now.book.entries }
    {
        self.roll.first_pending(number)
    }

    /// The first entry with a Live place, of those taken from this number on.
    pub fn first_placed(&self, number: u64) -> Option<&Entry>
        ensures { option_copied result ≡ placed_from number self.now.book.entries }
    {
        self.roll.first_placed(number)
    }

    /// The first entry, in the order of taking, that may be retired: it has a Live place, and as many sweeps in a row as the layout's shape gives lives
    /// found it quiet, or one where a Close was taken for it.
    pub fn first_retirable(&self) -> Option<&Entry>
        ensures { option_copied result ≡ first_retirable self.now.layout.shape.lives self.now.book.entries }
    {
        self.roll.first_retirable()
    }

    /// The key's entry. None where it isn't registered.
    pub fn get(&self, key: Key) -> Option<&Entry>
        ensures { option_copied result ≡ entry_for key self.now.book.entries }
    {
        key_ranges(key);
        match self.numbers.get(key) {
            Some(number) => self.roll.get(number),
            None => None,
        }
    }

    /// Whether the key is registered.
    pub fn is_registered(&self, key: Key) -> bool
        ensures { result ≡ is_registered key self.now.book.entries }
    {
        match self.get(key) {
            Some(_) => true,
            None => false,
        }
    }

    /// How many registered keys have this virtual address and version.
    pub fn count(&self, vip: u8, version: Version) -> u64
        ensures { result ≡ count_of vip version self.now.book.entries }
    {
        if vip < 16 {
            self.counts.count(vip, version)
        } else {
            0
        }
    }

    /// The key of the entry that has the place, as its own or as the one that it is about to leave. (A place that the layout doesn't have is
    /// looked for entry by entry.)
    pub fn holder(&self, place: Place) -> Option<Key>
        ensures { result ≡ holder_of place self.now.book.entries }
    {
        match cell(&self.layout, place) {
            Some(at) => self.holders.get(at),
            None => self.holder_by_entry(place),
        }
    }

    /// Whether some other registered key outside the full-key table clashes with the key in this way, 1 or 2.
    pub fn clashing(&self, way: u8, key: Key) -> bool
        requires { (1 ≤ way) × (way ≤ 2) }
        ensures { result ≡ is_clashing self.now.layout.shape way key self.now.book.entries }
    {
        let own = own_outside(self.get(key));
        self.outsiders(way, key) > own
    }

    /// How many entries stand in a slot of this way, 1 or 2, and clash with the key in it, its own counted: the key's packets are taken for theirs.
    pub fn standing(&self, way: u8, key: Key) -> u64
        requires { (1 ≤ way) × (way ≤ 2) }
        ensures { result ≡ standing_of self.now.layout.shape way key self.now.book.entries }
    {
        if way == 1 {
            self.first.standing(&self.layout, 1, key)
        } else {
            self.second.standing(&self.layout, 2, key)
        }
    }

    /// The key is taken: it is registered with this version as the last entry, if it wasn't. It takes no memory.
    pub fn take(&mut self, key: Key, version: Version)
        requires few { self.old.book.taken < most_taken }
        requires room { 0 < self.old.room }
        ensures layout { self.new.layout ≡ self.old.layout }
        ensures book { self.new.book ≡ with_taken key version self.old.book }
        ensures room { self.old.room ≤ self.new.room + 1 }
    {
        if !self.is_registered(key) {
            self.enter(key, version);
        }
    }

    /// A Close was taken for the key.
    pub fn close(&mut self, key: Key)
        ensures layout { self.new.layout ≡ self.old.layout }
        ensures book { self.new.book ≡ with_closed key self.old.book }
        ensures room { self.old.room ≤ self.new.room }
    {
        match self.get(key) {
            Some(entry) => {
                let mut entry = *entry;
                entry.closed = true;
                self.note(key, entry);
            }
            None => {}
        }
    }

    /// The key, if it is registered, is Live at the place. With a place already held, the old place goes to `also`.
    pub fn settle(&mut self, key: Key, place: Place)
        requires alone { IsAlone key self.old.book.entries }
        requires free { holder_of place self.old.book.entries ≡ None }
        ensures layout { self.new.layout ≡ self.old.layout }
        ensures book { self.new.book ≡ with_settled key place self.old.book }
        ensures room { self.old.room ≤ self.new.room }
    {
        match self.get(key) {
            Some(entry) => {
                let entry = *entry;
                self.move_entry(key, &entry, place);
            }
            None => {}
        }
    }

    /// The key gives up the place that it had before, if there is one.
    pub fn leave(&mut self, key: Key)
        ensures layout { self.new.layout ≡ self.old.layout }
        ensures book { self.new.book ≡ with_left key self.old.book }
        ensures room { self.old.room ≤ self.new.room }
    {
        match self.get(key) {
            Some(entry) => {
                let entry = *entry;
                self.leave_place(key, &entry);
            }
            None => {}
        }
    }

    /// A sweep went by the key's place, and found a hit there or found none.
    pub fn sweep(&mut self, key: Key, hit: bool)
        ensures layout { self.new.layout ≡ self.old.layout }
        ensures book { self.new.book ≡ with_swept key hit self.old.book }
        ensures room { self.old.room ≤ self.new.room }
    {
        match self.get(key) {
            Some(entry) => {
                let mut entry = *entry;
                entry.quiet = Some(quiet_after(hit, entry.quiet));
                self.note(key, entry);
            }
            None => {}
        }
    }

    /// The connection is over: the key's entry, which the book has no more. None where it isn't registered.
    pub fn retire(&mut self, key: Key) -> Option<Entry>
        ensures entry { result ≡ entry_for key self.old.book.entries }
        ensures layout { self.new.layout ≡ self.old.layout }
        ensures book { self.new.book ≡ with_retired key self.old.book }
        ensures room { self.old.room ≤ self.new.room }
    {
        match self.get(key) {
            Some(entry) => {
                let entry = *entry;
                self.drop_entry(key, &entry);
                Some(entry)
            }
            None => None,
        }
    }

    // How many registered keys outside the full-key table clash with the key, itself counted.
    fn outsiders(&self, way: u8, key: Key) -> u64
        requires { (1 ≤ way) × (way ≤ 2) }
        ensures count { result ≡ count_by (is_outsider self.now.layout.shape way key) self.now.book.entries }
        ensures distinct { DistinctKeys self.now.book.entries }
    {
        if way == 1 {
            self.first.outsiders(&self.layout, 1, key)
        } else {
            self.second.outsiders(&self.layout, 2, key)
        }
    }

    // Who holds a place, by a look at every entry.
    fn holder_by_entry(&self, place: Place) -> Option<Key>
        ensures { result ≡ holder_of place self.now.book.entries }
    {
        for i in 0..self.len() {
            match holder_if(self.at(i), place) {
                Some(key) => return Some(key),
                None => {}
            }
        }
        None
    }

    // A new last entry, for which there is room.
    fn enter(&mut self, key: Key, version: Version)
        requires new { is_registered key self.old.book.entries ≡ false }
        requires few { self.old.book.taken < most_taken }
        requires room { 0 < self.old.room }
        ensures layout { self.new.layout ≡ self.old.layout }
        ensures book { self.new.book ≡ with_new key version self.old.book }
        ensures room { self.old.room ≤ self.new.room + 1 }
    {
        key_ranges(key);
        let entry = new_entry(key, version, self.roll.taken());
        self.numbers.join(key, entry.taken);
        self.counts.join(&entry);
        self.first.join(&self.layout, 1, &entry);
        self.second.join(&self.layout, 2, &entry);
        self.roll.push(entry);
    }

    // An entry in the place of the key's, from which the indexes can't tell it.
    fn note(&mut self, key: Key, entry: Entry)
        requires { CanNote key entry self.old.book.entries }
        ensures layout { self.new.layout ≡ self.old.layout }
        ensures book { (change : AnEntry → AnEntry) (e : AnEntry) → entry_for key self.old.book.entries ≡ Some e
            → entry ≡ change e → self.new.book ≡ record self.old.book { entries = with_changed change key self.old.book.entries } }
        ensures room { self.old.room ≤ self.new.room }
    {
        let number = entry.taken;
        self.roll.put(number, Some(entry));
    }

    // The key's entry moves to a place that nobody holds.
    fn move_entry(&mut self, key: Key, entry: &Entry, place: Place)
        requires registered { entry_for key self.old.book.entries ≡ Some entry.now }
        requires alone { entry.now.also ≡ None }
        requires free { holder_of place self.old.book.entries ≡ None }
        ensures layout { self.new.layout ≡ self.old.layout }
        ensures book { self.new.book ≡ with_settled key place self.old.book }
        ensures room { self.old.room ≤ self.new.room }
    {
        let moved = Entry {
            key: entry.key,
            version: entry.version,
            place: Some(place),
            also: entry.place,
            taken: entry.taken,
            closed: entry.closed,
            quiet: None,
        };
        self.first.swap(&self.layout, 1, entry, &moved);
        self.second.swap(&self.layout, 2, entry, &moved);
        self.holders.settle(&self.layout, entry, place);
        self.roll.put(entry.taken, Some(moved));
    }

    // The key's entry gives up the place that it had before.
    fn leave_place(&mut self, key: Key, entry: &Entry)
        requires { entry_for key self.old.book.entries ≡ Some entry.now }
        ensures layout { self.new.layout ≡ self.old.layout }
        ensures book { self.new.book ≡ with_left key self.old.book }
        ensures room { self.old.room ≤ self.new.room }
    {
        let left = Entry {
            key: entry.key,
            version: entry.version,
            place: entry.place,
            also: None,
            taken: entry.taken,
            closed: entry.closed,
            quiet: entry.quiet,
        };
        self.holders.leave(&self.layout, entry);
        self.roll.put(entry.taken, Some(left));
    }

    // The key's entry goes.
    fn drop_entry(&mut self, key: Key, entry: &Entry)
        requires { entry_for key self.old.book.entries ≡ Some entry.now }
        ensures layout { self.new.layout ≡ self.old.layout }
        ensures book { self.new.book ≡ with_retired key self.old.book }
        ensures room { self.old.room ≤ self.new.room }
    {
        self.numbers.drop_out(key);
        self.counts.drop_out(entry);
        self.first.drop_out(&self.layout, 1, entry);
        self.second.drop_out(&self.layout, 2, entry);
        self.holders.free(&self.layout, entry);
        self.roll.put(entry.taken, None);
    }
}

// The entry of a key that is registered now.
fn new_entry(key: Key, version: Version, taken: u64) -> Entry
    ensures { result ≡ fresh key version taken }
{
    Entry {
        key,
        version,
        place: None,
        also: None,
        taken,
        closed: false,
        quiet: None,
    }
}

// 1 for an entry that isn't placed in a row of the full-key table, else 0.
fn own_outside(entry: Option<&Entry>) -> u64
    ensures { result ≡ own_outside (option_copied entry.entry) }
{
    match entry {
        Some(entry) => outside(entry),
        None => 0,
    }
}

// The entry's key, if the entry holds the place.
fn holder_if(entry: Option<&Entry>, place: Place) -> Option<Key>
    ensures { result ≡ holder_of place (option_to_list (option_copied entry.entry)) }
{
    match entry {
        Some(entry) => {
            if entry.holds(place) {
                Some(entry.key)
            } else {
                None
            }
        }
        None => None,
    }
}

/// What holds of the book: no key has two entries, no place is held twice, the keys are in range, and the numbers rise and are below the
/// number of entries that were ever taken, which is at most 2^58.
pub fn indexed_book_rules(book: &IndexedBook)
    ensures { IsBook book.now.book.entries book.now.book.taken }
{
    let _ = &book.layout;
}
