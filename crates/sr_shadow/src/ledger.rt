ghost use Rattle.std.specs.Prelude.{◌≡◌, ◌+◌, ◌<◌, ◌≤◌, IfOk, IfSome, None, OnOk, length, option_copied, slice_get};
ghost use Rattle.sr_base.specs.WordName.{HasPlace};
ghost use Rattle.sr_shadow.specs.Book.{empty_book, entry_for, first_retirable, is_registered, pending_from, placed_from, holder_of, count_of, is_clashing, standing_of, most_taken, with_closed, with_taken, with_settled, with_left, with_swept, with_retired, IsAlone, IsBook};
ghost use Rattle.sr_shadow.specs.Ledger.{AllFit, FitsEntry};

use crate::{Entry, IndexedBook, indexed_book_rules};
use sr_base::{Key, Layout, Place, Version};
use std::alloc::{AllocError, Global};
use std::marker::Model;

/// The controller's book, with room counted: where there is some, a key is taken without memory. Each Live place is one that
/// the layout has. It takes memory in `new` and `reserve` alone, and its calls take the time that those of `IndexedBook` take.
#[derive(Drop)]
pub struct Ledger {
    indexed: IndexedBook,
}

impl Model for Ledger {
    ghost use Rattle.sr_shadow.specs.Ledger.{AllFit, LedgerView};

    ghost Value = { LedgerView };

    ghost view = { λ l. l.indexed };

    ghost invariant = { λ l. AllFit l.indexed };
}

impl Ledger {
    /// The empty book of a layout.
    pub fn new(alloc: Global, layout: &Layout) -> Result<Ledger, AllocError>
        ensures layout { IfOk result (λ l. l.layout ≡ layout.now) }
        ensures book { IfOk result (λ l. l.book ≡ empty_book) }
    {
        let indexed = IndexedBook::new(alloc, layout)?;
        Ok(Ledger { indexed })
    }

    /// Makes room for at least so many more entries. Room that there is stays.
    pub fn reserve(&mut self, alloc: Global, entries: usize) -> Result<(), AllocError>
        ensures layout { self.new.layout ≡ self.old.layout }
        ensures book { self.new.book ≡ self.old.book }
        ensures room { OnOk result (entries ≤ self.new.room) }
        ensures kept { self.old.room ≤ self.new.room }
    {
        self.indexed.reserve(alloc, entries)
    }

    /// The same book, as the plan looks at it.
    pub fn indexed(&self) -> &IndexedBook
        ensures { result.now ≡ self.now }
    {
        &self.indexed
    }

    /// The number that the next new entry gets: how many entries were ever taken.
    pub fn taken(&self) -> u64
        ensures value { result ≡ self.now.book.taken }
        ensures most { result ≤ most_taken }
    {
        indexed_book_rules(&self.indexed);
        self.indexed.taken()
    }

    /// How many keys are registered.
    pub fn len(&self) -> usize
        ensures { result ≡ length self.now.book.entries }
    {
        self.indexed.len()
    }

    /// The i-th entry in the order of taking, from 0.
    pub fn at(&self, i: usize) -> Option<&Entry>
        ensures value { option_copied result ≡ slice_get self.now.book.entries i }
        ensures fit { IfSome (option_copied result) (FitsEntry self.now.layout.shape self.now.book.taken) }
    {
        self.indexed.at(i)
    }

    /// The key's entry. None where it isn't registered.
    pub fn get(&self, key: Key) -> Option<&Entry>
        ensures value { option_copied result ≡ entry_for key self.now.book.entries }
        ensures fit { IfSome (option_copied result) (FitsEntry self.now.layout.shape self.now.book.taken) }
    {
        self.indexed.get(key)
    }

    /// Whether the key is registered.
    pub fn is_registered(&self, key: Key) -> bool
        ensures { result ≡ is_registered key self.now.book.entries }
    {
        self.indexed.is_registered(key)
    }

    /// The first entry without a Live place, of those taken from this number on.
    pub fn first_pending(&self, number: u64) -> Option<&Entry>
        ensures value { option_copied result ≡ pending_from number self.now.book.entries }
        ensures fit { IfSome (option_copied result) (FitsEntry self.now.layout.shape self.now.book.taken) }
    {
        self.indexed.first_pending(number)
    }

    /// The first entry with a Live place, of those taken from this number on.
    pub fn first_placed(&self, number: u64) -> Option<&Entry>
        ensures value { option_copied result ≡ placed_from number self.now.book.entries }
        ensures fit { IfSome (option_copied result) (FitsEntry self.now.layout.shape self.now.book.taken) }
    {
        self.indexed.first_placed(number)
    }

    /// The first entry, in the order of taking, that may be retired, where a connection has the lives of the layout's shape.
    pub fn first_retirable(&self) -> Option<&Entry>
        ensures value { option_copied result ≡ first_retirable self.now.layout.shape.lives self.now.book.entries }
        ensures fit { IfSome (option_copied result) (FitsEntry self.now.layout.shape self.now.book.taken) }
    {
        self.indexed.first_retirable()
    }

    /// How many registered keys have this virtual address and version.
    pub fn count(&self, vip: u8, version: Version) -> u64
        ensures { result ≡ count_of vip version self.now.book.entries }
    {
        self.indexed.count(vip, version)
    }

    /// The key of the entry that has the place, as its own or as the one that it is about to leave. (A place that the layout
    /// doesn't have is looked for entry by entry.)
    pub fn holder(&self, place: Place) -> Option<Key>
        ensures { result ≡ holder_of place self.now.book.entries }
    {
        self.indexed.holder(place)
    }

    /// Whether some other registered key outside the full-key table clashes with the key in this way, 1 or 2.
    pub fn clashing(&self, way: u8, key: Key) -> bool
        requires { (1 ≤ way) × (way ≤ 2) }
        ensures { result ≡ is_clashing self.now.layout.shape way key self.now.book.entries }
    {
        self.indexed.clashing(way, key)
    }

    /// How many entries stand in a slot of this way, 1 or 2, and clash with the key in it, its own counted.
    pub fn standing(&self, way: u8, key: Key) -> u64
        requires { (1 ≤ way) × (way ≤ 2) }
        ensures { result ≡ standing_of self.now.layout.shape way key self.now.book.entries }
    {
        self.indexed.standing(way, key)
    }

    /// The key is taken: it is registered with this version as the last entry, if it wasn't. It takes no memory.
    pub fn take(&mut self, key: Key, version: Version)
        requires few { self.old.book.taken < most_taken }
        requires room { 0 < self.old.room }
        ensures layout { self.new.layout ≡ self.old.layout }
        ensures book { self.new.book ≡ with_taken key version self.old.book }
        ensures room { self.old.room ≤ self.new.room + 1 }
    {
        self.indexed.take(key, version);
    }

    /// A Close was taken for the key.
    pub fn close(&mut self, key: Key)
        ensures layout { self.new.layout ≡ self.old.layout }
        ensures book { self.new.book ≡ with_closed key self.old.book }
        ensures room { self.old.room ≤ self.new.room }
    {
        self.indexed.close(key);
    }

    /// The key, if it is registered, is Live at the place. With a place already held, the old place goes to `also`.
    pub fn settle(&mut self, key: Key, place: Place)
        requires has { HasPlace self.old.layout.shape place }
        requires alone { IsAlone key self.old.book.entries }
        requires free { holder_of place self.old.book.entries ≡ None }
        ensures layout { self.new.layout ≡ self.old.layout }
        ensures book { self.new.book ≡ with_settled key place self.old.book }
        ensures room { self.old.room ≤ self.new.room }
    {
        self.indexed.settle(key, place);
    }

    /// The key gives up the place that it had before, if there is one.
    pub fn leave(&mut self, key: Key)
        ensures layout { self.new.layout ≡ self.old.layout }
        ensures book { self.new.book ≡ with_left key self.old.book }
        ensures room { self.old.room ≤ self.new.room }
    {
        self.indexed.leave(key);
    }

    /// A sweep went by the key's place, and found a hit there or found none.
    pub fn sweep(&mut self, key: Key, hit: bool)
        ensures layout { self.new.layout ≡ self.old.layout }
        ensures book { self.new.book ≡ with_swept key hit self.old.book }
        ensures room { self.old.room ≤ self.new.room }
    {
        self.indexed.sweep(key, hit);
    }

    /// The connection is over: the key's entry is out.
    pub fn retire(&mut self, key: Key)
        ensures layout { self.new.layout ≡ self.old.layout }
        ensures book { self.new.book ≡ with_retired key self.old.book }
        ensures room { self.old.room ≤ self.new.room }
    {
        self.indexed.retire(key);
    }
}

/// What holds of every ledger: its book is one, and each entry fits.
pub fn ledger_rules(ledger: &Ledger)
    ensures book { IsBook ledger.now.book.entries ledger.now.book.taken }
    ensures fit { AllFit ledger.now }
{
    indexed_book_rules(&ledger.indexed);
}
