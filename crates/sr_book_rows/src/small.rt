//! A small book: two buckets, digests of one bit and four rows, so that keys clash.

use sr_base::{Key, Layout, Place, Shape, Version};
use sr_shadow::{Entry, Shadow, Took};
use std::alloc::{AllocError, Global};

const SMALL: Shape = Shape {
    pipes: 1,
    buckets: 2,
    digest_bits: 1,
    versions: 4,
    pool_max: 4,
    full_rows: 4,
    filter_bits: 64,
    ring: 8,
    window_ms: 10,
    idle_ms: 1000,
    lives: 2,
};

/// A layout of two virtual addresses.
pub(crate) fn small_layout() -> Option<Layout> {
    match Layout::new(SMALL, 2, 4) {
        Ok(layout) => Some(layout),
        Err(_) => None,
    }
}

/// The client of one address and this port.
pub(crate) fn client(port: u16) -> Key {
    Key {
        vip: 0,
        ip: 0x0a00_0009,
        port,
    }
}

/// A book that is called where its conditions hold.
#[derive(Drop)]
pub(crate) struct Book {
    shadow: Shadow,
}

impl Book {
    pub(crate) fn new(alloc: Global, layout: &Layout) -> Result<Book, AllocError> {
        let shadow = Shadow::new(alloc, layout)?;
        Ok(Book { shadow })
    }

    pub(crate) fn reserve(&mut self, alloc: Global, key: Key) -> Result<(), AllocError> {
        self.shadow.reserve(alloc, key)
    }

    /// Whether the key is new; None where the version is none.
    pub(crate) fn take(
        &mut self,
        alloc: Global,
        key: Key,
        version: u8,
    ) -> Result<Option<bool>, AllocError> {
        let Some(version) = Version::new(version) else {
            return Ok(None);
        };
        if self.shadow.taken() >= 1 << 56 {
            return Ok(None);
        }
        let took = self.shadow.take(alloc, key, version)?;
        Ok(Some(is_new(took)))
    }

    pub(crate) fn close(&mut self, key: Key) -> bool {
        self.shadow.close(key)
    }

    /// Whether the key may settle there, and then does.
    pub(crate) fn settle(&mut self, key: Key, place: Place) -> bool {
        if !self.shadow.can_settle(key, place) {
            return false;
        }
        self.shadow.settle(key, place);
        true
    }

    /// Whether the key may leave a place, and then does.
    pub(crate) fn leave(&mut self, key: Key) -> bool {
        if !self.shadow.can_leave(key) {
            return false;
        }
        self.shadow.leave(key);
        true
    }

    /// Whether the key may be swept, and then is.
    pub(crate) fn sweep(&mut self, key: Key, hit: bool) -> bool {
        if !self.shadow.can_sweep(key) {
            return false;
        }
        self.shadow.swept(key, hit);
        true
    }

    pub(crate) fn retire(&mut self, key: Key) -> Option<Entry> {
        self.shadow.retire(key)
    }

    pub(crate) fn get(&self, key: Key) -> Option<Entry> {
        copied(self.shadow.get(key))
    }

    /// The version of the key's entry.
    pub(crate) fn version_of(&self, key: Key) -> Option<u8> {
        match self.shadow.get(key) {
            Some(entry) => Some(entry.version.number()),
            None => None,
        }
    }

    pub(crate) fn at(&self, i: usize) -> Option<Entry> {
        copied(self.shadow.at(i))
    }

    pub(crate) fn first(&self, number: u64, placed: bool) -> Option<Entry> {
        if placed {
            copied(self.shadow.first_placed(number))
        } else {
            copied(self.shadow.first_pending(number))
        }
    }

    pub(crate) fn len(&self) -> usize {
        self.shadow.len()
    }

    pub(crate) fn holder(&self, place: Place) -> Option<Key> {
        self.shadow.holder(place)
    }

    /// Whether the key clashes in way 1, and in way 2.
    pub(crate) fn clashing(&self, key: Key) -> (bool, bool) {
        (self.shadow.clashing(1, key), self.shadow.clashing(2, key))
    }

    /// How many stand with a clash in slots of way 1, and of way 2.
    pub(crate) fn standing(&self, key: Key) -> (u64, u64) {
        (self.shadow.standing(1, key), self.shadow.standing(2, key))
    }

    pub(crate) fn count(&self, vip: u8, version: u8) -> u64 {
        match Version::new(version) {
            Some(version) => self.shadow.count(vip, version),
            None => 0,
        }
    }
}

fn is_new(took: Took) -> bool {
    match took {
        Took::New => true,
        Took::Same => false,
    }
}

fn copied(entry: Option<&Entry>) -> Option<Entry> {
    match entry {
        Some(entry) => Some(*entry),
        None => None,
    }
}
