ghost use Rattle.std.specs.Prelude.{◌≡◌, ◌↔◌, ◌-◌, ◌<◌, ◌≤◌, length, slice_get, true, false, is_some, option_copied, None, Some, IsOk, IfOk, IsTrue, OnOk, OnErr};
ghost use Rattle.sr_shadow.specs.Book.{entry_for, first_retirable, is_registered, pending_from, placed_from, holder_of, count_of, is_clashing, standing_of, most_taken, with_closed, with_settled, with_left, with_swept, with_retired, CanSettle, CanLeave, CanSweep, IsBook};
ghost use Rattle.sr_shadow.specs.ShadowView.{opened, reserved_for, ready_after, is_ready, with_book, HasRoom};
ghost use Rattle.sr_shadow.specs.Taking.{Takes};

use crate::{Entry, IndexedBook, Took, indexed_book_rules};
use sr_base::{Key, Layout, Place, Version};
use std::alloc::{AllocError, Global};
use std::marker::Model;

/// The controller's book, with room made for one key at a time. It takes memory in `new`, `reserve` and `take` alone. Its calls
/// take the time that those of `IndexedBook` take, and `take` now and then closes gaps, as `reserve` does.
#[derive(Drop)]
pub struct Shadow {
    indexed: IndexedBook,
    ready: Option<Key>,
}

impl Model for Shadow {
    ghost use Rattle.sr_shadow.specs.ShadowView.{HasRoom, ShadowView};

    ghost Value = { ShadowView };

    ghost view = { λ s. record { layout = s.indexed.layout; book = s.indexed.book; ready = s.ready } };

    ghost invariant = { λ s. HasRoom s.ready s.indexed.room };
}

impl Shadow {
    /// The empty book of a layout.
    pub fn new(alloc: Global, layout: &Layout) -> Result<Shadow, AllocError>
        ensures { IfOk result (λ s. s ≡ opened layout.now) }
    {
        let indexed = IndexedBook::new(alloc, layout)?;
        Ok(Shadow {
            indexed,
            ready: None,
        })
    }

    /// The same book, as the plan looks at it.
    pub fn indexed(&self) -> &IndexedBook
        ensures layout { result.now.layout ≡ self.now.layout }
        ensures book { result.now.book ≡ self.now.book }
    {
        &self.indexed
    }

    /// The number that the next new entry gets: how many entries were ever taken.
    pub fn taken(&self) -> u64
        ensures { result ≡ self.now.book.taken }
    {
        self.indexed.taken()
    }

    /// How many keys are registered.
    pub fn len(&self) -> usize
        ensures { result ≡ length self.now.book.entries }
    {
        self.indexed.len()
    }

    /// The i-th entry in the order of taking, from 0.
    pub fn at(&self, i: usize) -> Option<&Entry>
        ensures { option_copied result ≡ slice_get self.now.book.entries i }
    {
        self.indexed.at(i)
    }

    /// The first entry without a Live place, of those taken from this number on.
    pub fn first_pending(&self, number: u64) -> Option<&Entry>
        ensures { option_copied result ≡ pending_from number self.now.book.entries }
    {
        self.indexed.first_pending(number)
    }

    /// The first entry with a Live place, of those taken from this number on.
    pub fn first_placed(&self, number: u64) -> Option<&Entry>
        ensures { option_copied result ≡ placed_from number self.now.book.entries }
    {
        self.indexed.first_placed(number)
    }

    /// The first entry, in the order of taking, that may be retired: it has a Live place, and as many sweeps in a row as the layout's shape gives lives
    /// found it quiet, or one where a Close was taken for it.
    pub fn first_retirable(&self) -> Option<&Entry>
        ensures { option_copied result ≡ first_retirable self.now.layout.shape.lives self.now.book.entries }
    {
        self.indexed.first_retirable()
    }

    /// The key's entry. None where it isn't registered.
    pub fn get(&self, key: Key) -> Option<&Entry>
        ensures { option_copied result ≡ entry_for key self.now.book.entries }
    {
        self.indexed.get(key)
    }

    /// How many registered keys have this virtual address and version.
    pub fn count(&self, vip: u8, version: Version) -> u64
        ensures { result ≡ count_of vip version self.now.book.entries }
    {
        self.indexed.count(vip, version)
    }

    /// The key of the entry that has the place, as its own or as the one that it is about to leave. (A place that the layout doesn't have is
    /// looked for entry by entry.)
    pub fn holder(&self, place: Place) -> Option<Key>
        ensures { result ≡ holder_of place self.now.book.entries }
    {
        self.indexed.holder(place)
    }

    /// Whether some other registered key outside the full-key table clashes with the key in this way, 1 or 2.
    pub fn clashing(&self, way: u8, key: Key) -> bool
        requires { (1 ≤ way) × (way ≤ 2) }
        ensures { result ≡ is_clashing self.now.layout.shape way key self.now.book.entries }
    {
        self.indexed.clashing(way, key)
    }

    /// How many entries stand in a slot of this way, 1 or 2, and clash with the key in it, its own counted: the key's packets are taken for theirs.
    pub fn standing(&self, way: u8, key: Key) -> u64
        requires { (1 ≤ way) × (way ≤ 2) }
        ensures { result ≡ standing_of self.now.layout.shape way key self.now.book.entries }
    {
        self.indexed.standing(way, key)
    }

    /// Makes room for an entry of this key, so that the next `take` of it needs no memory, whatever other keys are taken before. One key at a
    /// time has such room: a `reserve` for another key hands it on.
    pub fn reserve(&mut self, alloc: Global, key: Key) -> Result<(), AllocError>
        ensures ok { OnOk result (self.new ≡ reserved_for key self.old) }
        ensures err { OnErr result (self.new ≡ self.old) }
        ensures ready { is_some self.old.ready ≡ true → IsOk result }
    {
        if self.ready.is_some() {
            self.ready = Some(key);
            return Ok(());
        }
        self.indexed.reserve(alloc, 1)?;
        self.ready = Some(key);
        Ok(())
    }

    /// Registers a key with this version, as the last entry. `Same` where it is registered already: then nothing changes.
    pub fn take(&mut self, alloc: Global, key: Key, version: Version) -> Result<Took, AllocError>
        requires { self.old.book.taken < most_taken }
        ensures { Takes result key version self.old self.new }
    {
        if self.indexed.is_registered(key) {
            return Ok(Took::Same);
        }
        let left = make_room(alloc, &mut self.indexed, self.ready, key)?;
        self.indexed.take(key, version);
        self.ready = left;
        Ok(Took::New)
    }

    /// Marks the key closed. False where it isn't registered.
    pub fn close(&mut self, key: Key) -> bool
        ensures found { result ≡ is_registered key self.old.book.entries }
        ensures closed { self.new ≡ with_book (with_closed key) self.old }
    {
        let found = self.indexed.is_registered(key);
        self.indexed.close(key);
        found
    }

    /// Whether `settle` may be called: the key is registered and about to leave no place, and nobody holds this one.
    pub fn can_settle(&self, key: Key, place: Place) -> bool
        ensures { IsTrue result ↔ (CanSettle key self.now.book.entries × (holder_of place self.now.book.entries ≡ None)) }
    {
        match self.get(key) {
            Some(entry) => entry.also.is_none() && self.holder(place).is_none(),
            None => false,
        }
    }

    /// The key is Live at the place. With a place already held, the old place goes to `also`.
    pub fn settle(&mut self, key: Key, place: Place)
        requires registered { CanSettle key self.old.book.entries }
        requires free { holder_of place self.old.book.entries ≡ None }
        ensures { self.new ≡ with_book (with_settled key place) self.old }
    {
        self.indexed.settle(key, place);
    }

    /// Whether `leave` may be called: the key is about to leave a place.
    pub fn can_leave(&self, key: Key) -> bool
        ensures { IsTrue result ↔ CanLeave key self.now.book.entries }
    {
        match self.get(key) {
            Some(entry) => entry.also.is_some(),
            None => false,
        }
    }

    /// The key gives up the place that it had before.
    pub fn leave(&mut self, key: Key)
        requires { CanLeave key self.old.book.entries }
        ensures { self.new ≡ with_book (with_left key) self.old }
    {
        self.indexed.leave(key);
    }

    /// Whether `swept` may be called: the key has a Live place.
    pub fn can_sweep(&self, key: Key) -> bool
        ensures { IsTrue result ↔ CanSweep key self.now.book.entries }
    {
        match self.get(key) {
            Some(entry) => entry.place.is_some(),
            None => false,
        }
    }

    /// A sweep went by the key's place, and found a hit there or found none.
    pub fn swept(&mut self, key: Key, hit: bool)
        requires { CanSweep key self.old.book.entries }
        ensures { self.new ≡ with_book (with_swept key hit) self.old }
    {
        self.indexed.sweep(key, hit);
    }

    /// The connection is over: the key's entry, which the book has no more. None where it isn't registered.
    pub fn retire(&mut self, key: Key) -> Option<Entry>
        ensures entry { result ≡ entry_for key self.old.book.entries }
        ensures retired { self.new ≡ with_book (with_retired key) self.old }
    {
        self.indexed.retire(key)
    }
}

// Makes room for the key's entry, beside what was made for another key. What is left for another key once the entry is in.
fn make_room(
    alloc: Global,
    indexed: &mut IndexedBook,
    ready: Option<Key>,
    key: Key,
) -> Result<Option<Key>, AllocError>
    requires { HasRoom ready indexed.old.room }
    ensures layout { indexed.new.layout ≡ indexed.old.layout }
    ensures book { indexed.new.book ≡ indexed.old.book }
    ensures kept { indexed.old.room ≤ indexed.new.room }
    ensures left { IfOk result (λ left. left ≡ ready_after key ready) }
    ensures room { IfOk result (λ left. 0 < indexed.new.room × HasRoom left (indexed.new.room - 1)) }
    ensures err { OnErr result (is_ready key ready ≡ false) }
{
    if is_ready(&ready, key) {
        return Ok(None);
    }
    indexed.reserve(alloc, 2)?;
    Ok(ready)
}

// Whether room was made for the key.
fn is_ready(ready: &Option<Key>, key: Key) -> bool
    ensures { result ≡ is_ready key ready.now }
{
    match ready {
        Some(ready) => key.same(*ready),
        None => false,
    }
}

/// What holds of every book: no key has two entries, no place is held twice, the keys are in range, and the numbers rise and are below the
/// number of entries that were ever taken, which is at most 2^58.
pub fn book_rules(shadow: &Shadow)
    ensures { IsBook shadow.now.book.entries shadow.now.book.taken }
{
    indexed_book_rules(&shadow.indexed);
}
