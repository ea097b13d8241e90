//! The book as a plain list of its entries, read from one end to the other.

ghost use Rattle.std.specs.Prelude.{◌≤◌};

use sr_base::{Key, Layout, Place, Version, layout_ranges};
use sr_hash::clashes;
use sr_shadow::Entry;
use std::alloc::{AllocError, Global};

/// The entries in the order of taking, and how many were ever taken.
#[derive(Drop)]
pub(crate) struct Plain {
    entries: Vec<Entry>,
    taken: u64,
}

impl Plain {
    pub(crate) fn new(alloc: Global) -> Plain {
        Plain {
            entries: Vec::new(alloc),
            taken: 0,
        }
    }

    pub(crate) fn len(&self) -> usize {
        self.entries.len()
    }

    pub(crate) fn at(&self, i: usize) -> Option<Entry> {
        match self.entries.get(i) {
            Some(entry) => Some(*entry),
            None => None,
        }
    }

    pub(crate) fn get(&self, key: Key) -> Option<Entry> {
        for entry in self.entries.iter() {
            if entry.key == key {
                return Some(*entry);
            }
        }
        None
    }

    pub(crate) fn take(&mut self, key: Key, version: u8) -> Result<Option<bool>, AllocError> {
        if self.get(key).is_some() {
            return Ok(Some(false));
        }
        let Some(version) = Version::new(version) else {
            return Ok(None);
        };
        let entry = Entry {
            key,
            version,
            place: None,
            also: None,
            taken: self.taken,
            closed: false,
            quiet: None,
        };
        self.entries.push(entry)?;
        self.taken = self.taken.wrapping_add(1);
        Ok(Some(true))
    }

    // Another entry for the key.
    fn put(&mut self, entry: Entry) {
        for held in self.entries.iter_mut() {
            if held.key == entry.key {
                *held = entry;
            }
        }
    }

    pub(crate) fn close(&mut self, key: Key) -> bool {
        match self.get(key) {
            Some(mut entry) => {
                entry.closed = true;
                self.put(entry);
                true
            }
            None => false,
        }
    }

    pub(crate) fn settle(&mut self, key: Key, place: Place) -> bool {
        match self.get(key) {
            Some(mut entry) => {
                if entry.also.is_some() || self.holder(place).is_some() {
                    return false;
                }
                entry.also = entry.place;
                entry.place = Some(place);
                entry.quiet = None;
                self.put(entry);
                true
            }
            None => false,
        }
    }

    pub(crate) fn leave(&mut self, key: Key) -> bool {
        match self.get(key) {
            Some(mut entry) => {
                if entry.also.is_none() {
                    return false;
                }
                entry.also = None;
                self.put(entry);
                true
            }
            None => false,
        }
    }

    pub(crate) fn sweep(&mut self, key: Key, hit: bool) -> bool {
        match self.get(key) {
            Some(mut entry) => {
                if entry.place.is_none() {
                    return false;
                }
                entry.quiet = Some(quiet_sweeps(entry.quiet, hit));
                self.put(entry);
                true
            }
            None => false,
        }
    }

    pub(crate) fn retire(&mut self, key: Key) -> Option<Entry> {
        let known = self.get(key);
        self.entries.retain(|entry: &Entry| entry.key != key);
        known
    }

    pub(crate) fn count(&self, vip: u8, version: u8) -> u64 {
        let mut count: u64 = 0;
        for entry in self.entries.iter() {
            if entry.key.vip == vip && entry.version.number() == version {
                count = count.wrapping_add(1);
            }
        }
        count
    }

    pub(crate) fn holder(&self, place: Place) -> Option<Key> {
        for entry in self.entries.iter() {
            if entry.place == Some(place) || entry.also == Some(place) {
                return Some(entry.key);
            }
        }
        None
    }

    // Whether another key outside the full-key table clashes with this one in a way.
    fn clashing_in(&self, layout: &Layout, way: u8, key: Key) -> bool
        requires { (1 ≤ way) × (way ≤ 2) }
    {
        layout_ranges(layout);
        for entry in self.entries.iter() {
            let outside = !matches!(entry.place, Some(Place::Row { .. }));
            if outside && entry.key != key && clashes(layout.shape(), way, key, entry.key) {
                return true;
            }
        }
        false
    }

    pub(crate) fn clashing(&self, layout: &Layout, key: Key) -> (bool, bool) {
        (
            self.clashing_in(layout, 1, key),
            self.clashing_in(layout, 2, key),
        )
    }

    // How many stand in a slot of a way and clash with this key in it.
    fn standing_in(&self, layout: &Layout, way: u8, key: Key) -> u64
        requires { (1 ≤ way) × (way ≤ 2) }
    {
        layout_ranges(layout);
        let mut count: u64 = 0;
        for entry in self.entries.iter() {
            if stands_in(entry, way) && clashes(layout.shape(), way, key, entry.key) {
                count = count.wrapping_add(1);
            }
        }
        count
    }

    pub(crate) fn standing(&self, layout: &Layout, key: Key) -> (u64, u64) {
        (
            self.standing_in(layout, 1, key),
            self.standing_in(layout, 2, key),
        )
    }

    // The first entry from a number on, with a Live place or without one.
    pub(crate) fn first(&self, number: u64, placed: bool) -> Option<Entry> {
        for entry in self.entries.iter() {
            if number <= entry.taken && entry.place.is_some() == placed {
                return Some(*entry);
            }
        }
        None
    }
}

fn stands_in(entry: &Entry, way: u8) -> bool {
    match entry.place {
        Some(Place::Slot { way: at, .. }) => at == way,
        _ => false,
    }
}

fn quiet_sweeps(quiet: Option<u8>, hit: bool) -> u8 {
    match quiet {
        None => 0,
        Some(n) => { if hit { 0 } else { n.saturating_add(1) } }
    }
}
