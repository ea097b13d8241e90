ghost use Rattle.std.specs.Prelude.{◌≡◌, ◌≤◌, ◌∷◌, ◌==◌, ◌&&◌, ℕ, List, [], OnOk, true};
ghost use Rattle.std.specs.BTreeMap.{get};
ghost use Rattle.std.specs.BTreeSet.{contains};
ghost use Rattle.std.specs.List.{list_any};
ghost use Rattle.std.specs.Ordering.{nat_cmp};
ghost use Rattle.sr_law.specs.Held.{in_filter, records};
ghost use Rattle.sr_law.specs.declared.line.Line.{Line as ALine};
ghost use Rattle.sr_audit.specs.Filters.{has_place, has_places, MayHaveSet, Sends, TellsFilters};
ghost use Rattle.sr_audit.specs.LastGivings.{TellsGivings};

use crate::last_givings::LastGivings;
use sr_base::{Key, Kind, Shape};
use sr_hash::bloom_places;
use sr_law::{Giving, Line, Verdict, has_pool};
use std::alloc::{AllocError, Global};
use std::collections::{BTreeMap, BTreeSet};

// What the filter of a virtual address may hold since its update began to record: the places that were set by openers which were sent to
// another pool than the one that the update switches to.
#[derive(Drop)]
pub(crate) struct Filter {
    giving: Option<Giving>,
    places: BTreeSet<u32>,
}

impl Filter {
    // An opener of this key may have set its places.
    fn set(&mut self, bits: u32, key: Key) -> Result<(), AllocError>
        requires { 1 ≤ bits }
        ensures { OnOk result (MayHaveSet bits key true self.old self.new) }
    {
        let [first, second, third] = bloom_places(key, bits);
        self.places.insert(first)?;
        self.places.insert(second)?;
        self.places.insert(third)?;
        Ok(())
    }

    // Each place of this key may have been set.
    fn has_places(&self, bits: u32, key: Key) -> bool
        requires { 1 ≤ bits }
        ensures { result ≡ has_places bits self.now key }
    {
        let [first, second, third] = bloom_places(key, bits);
        self.places.contains(&first)
            && self.places.contains(&second)
            && self.places.contains(&third)
    }
}

// The filter of each virtual address whose updates recorded openers.
#[derive(Drop)]
pub(crate) struct Filters {
    alloc: Global,
    map: BTreeMap<u8, Filter>,
}

impl Filters {
    // Of no lines.
    pub(crate) fn new(alloc: Global) -> Filters
        ensures { (bits : ℕ) → TellsFilters bits result [] }
    {
        Filters {
            alloc,
            map: BTreeMap::new(alloc),
        }
    }

    // An opener of this key was sent to this pool.
    fn send(&mut self, bits: u32, key: Key, pool: u64) -> Result<(), AllocError>
        requires { 1 ≤ bits }
        ensures { OnOk result ((vip : ℕ) → Sends bits key pool (key.vip == vip) (get nat_cmp self.old.map vip) (get nat_cmp self.new.map vip)) }
    {
        if let Some(filter) = self.map.get_mut(&key.vip) {
            if !has_pool(filter.giving, pool) {
                filter.set(bits, key)?;
            }
        }
        Ok(())
    }

    // One line more, by what the virtual addresses were last given before it.
    pub(crate) fn absorb(
        &mut self,
        shape: &Shape,
        givings: &LastGivings,
        line: &Line,
    ) -> Result<(), AllocError>
        requires { 1 ≤ shape.now.filter_bits }
        ensures { OnOk result ((before : List ALine) → TellsGivings givings.now before
            → TellsFilters shape.now.filter_bits self.old before
            → TellsFilters shape.now.filter_bits self.new (line.now ∷ before)) }
    {
        match *line {
            Line::Recorded { vip, .. } => {
                let filter = Filter {
                    giving: givings.last(vip),
                    places: BTreeSet::new(self.alloc),
                };
                self.map.insert(vip, filter)?;
                Ok(())
            }
            Line::Packet {
                key,
                kind,
                verdict,
                ..
            } => match (kind, verdict) {
                (Kind::Opener, Verdict::To { pool, .. }) => {
                    self.send(shape.filter_bits, key, pool)
                }
                _ => Ok(()),
            },
            _ => Ok(()),
        }
    }

    // Whether an update of this key's virtual address recorded, and each of its filter places may have been set since.
    pub(crate) fn may_hold(&self, shape: &Shape, key: Key) -> bool
        requires { 1 ≤ shape.now.filter_bits }
        ensures { (before : List ALine) → TellsFilters shape.now.filter_bits self.now before
            → result ≡ (list_any (records key.vip) before && in_filter shape.now before key) }
    {
        match self.map.get(&key.vip) {
            Some(filter) => filter.has_places(shape.filter_bits, key),
            None => false,
        }
    }
}
