ghost use Rattle.std.specs.Prelude.{◌≡◌, ◌+◌, ◌<◌, ◌≤◌, [], ℕ, nat_eq, cond, OnOk};
ghost use Rattle.indexmap.specs.IndexMap.{get, spare};
ghost use Rattle.sr_base.specs.declared.shape.Shape.{Shape as AShape};
ghost use Rattle.sr_shadow.specs.Index.{KeptAs, KeptWith, KeptWithout};
ghost use Rattle.sr_shadow.specs.Rivals.{class_of, tally_of, FewTallied, HasTallied, IsClassed, Tallied};

use crate::Entry;
use crate::entry::{outside, standing};
use crate::tally::Tally;
use indexmap::IndexMap;
use sr_base::{Key, Layout, Place, layout_ranges};
use sr_hash::{bucket, digest};
use std::alloc::{AllocError, Global};

// Of one way, the tallies of the classes of keys that clash with one another. A class without a registered key isn't kept.
#[derive(Drop)]
pub(crate) struct Rivals {
    map: IndexMap<u64, Tally>,
}

impl Rivals {
    // Of no entry.
    pub(crate) fn new(alloc: Global) -> Rivals
        ensures { (shape : AShape) (way : ℕ) → Tallied shape way (get nat_eq result.map) [] }
    {
        Rivals {
            map: IndexMap::new(alloc),
        }
    }

    // Makes room for so many more.
    pub(crate) fn reserve(&mut self, additional: usize) -> Result<(), AllocError>
        ensures same { self.new.map.entries ≡ self.old.map.entries }
        ensures more { spare self.old.map ≤ spare self.new.map }
        ensures room { OnOk result (additional ≤ spare self.new.map) }
    {
        self.map.reserve(additional)
    }

    // How many registered keys outside the full-key table clash with the key, itself counted.
    pub(crate) fn outsiders(&self, layout: &Layout, way: u8, key: Key) -> u64
        requires { (1 ≤ way) × (way ≤ 2) }
        ensures { result ≡ (tally_of (get nat_eq self.now.map) (class_of layout.now.shape way key)).outside }
    {
        self.tally(class(layout, way, key)).outside
    }

    // How many entries that stand in a slot of the way clash with the key in it, its own counted.
    pub(crate) fn standing(&self, layout: &Layout, way: u8, key: Key) -> u64
        requires { (1 ≤ way) × (way ≤ 2) }
        ensures { result ≡ (tally_of (get nat_eq self.now.map) (class_of layout.now.shape way key)).standing }
    {
        self.tally(class(layout, way, key)).standing
    }

    // One entry more.
    pub(crate) fn join(&mut self, layout: &Layout, way: u8, entry: &Entry)
        requires way { (1 ≤ way) × (way ≤ 2) }
        requires room { 0 < spare self.old.map }
        requires few { FewTallied layout.now.shape way (get nat_eq self.old.map) }
        ensures more { KeptWith (Tallied layout.now.shape way) (get nat_eq self.old.map) (get nat_eq self.new.map) entry.now }
        ensures room { spare self.old.map ≤ spare self.new.map + 1 }
    {
        let class = class(layout, way, entry.key);
        let tally = self.tally(class);
        let more = Tally {
            members: tally.members + 1,
            outside: tally.outside + outside(entry),
            standing: tally.standing + standing(way, entry),
        };
        match self.map.insert(class, more) {
            Ok(_) => {}
            Err(_) => unreachable!(),
        }
    }

    // The entry less.
    pub(crate) fn drop_out(&mut self, layout: &Layout, way: u8, entry: &Entry)
        requires way { (1 ≤ way) × (way ≤ 2) }
        requires has { HasTallied layout.now.shape way (get nat_eq self.old.map) entry.now }
        ensures less { KeptWithout (Tallied layout.now.shape way) (get nat_eq self.old.map) (get nat_eq self.new.map) entry.now }
        ensures room { spare self.old.map ≤ spare self.new.map }
    {
        let class = class(layout, way, entry.key);
        let tally = self.tally(class);
        let less = Tally {
            members: tally.members - 1,
            outside: tally.outside - outside(entry),
            standing: tally.standing - standing(way, entry),
        };
        self.put(class, less);
    }

    // An entry in the place of another of the same key.
    pub(crate) fn swap(&mut self, layout: &Layout, way: u8, old: &Entry, new: &Entry)
        requires way { (1 ≤ way) × (way ≤ 2) }
        requires key { new.now.key ≡ old.now.key }
        requires has { HasTallied layout.now.shape way (get nat_eq self.old.map) old.now }
        requires few { FewTallied layout.now.shape way (get nat_eq self.old.map) }
        ensures swapped { KeptAs (Tallied layout.now.shape way) (get nat_eq self.old.map) (get nat_eq self.new.map) old.now new.now }
        ensures room { spare self.old.map ≤ spare self.new.map }
    {
        if outside(old) == outside(new) && standing(way, old) == standing(way, new) {
            return;
        }
        let class = class(layout, way, old.key);
        let tally = self.tally(class);
        let other = Tally {
            members: tally.members,
            outside: tally.outside + outside(new) - outside(old),
            standing: tally.standing + standing(way, new) - standing(way, old),
        };
        self.put(class, other);
    }

    // The tally of a class.
    fn tally(&self, class: u64) -> Tally
        ensures { result ≡ tally_of (get nat_eq self.now.map) class }
    {
        match self.map.get(&class) {
            Some(tally) => *tally,
            None => Tally {
                members: 0,
                outside: 0,
                standing: 0,
            },
        }
    }

    // Another tally for a class that has keys.
    fn put(&mut self, class: u64, tally: Tally)
        requires { 1 ≤ (tally_of (get nat_eq self.old.map) class).members }
        ensures changed { (q : ℕ) → tally_of (get nat_eq self.new.map) q ≡ cond (nat_eq class q) tally (tally_of (get nat_eq self.old.map) q) }
        ensures room { spare self.old.map ≤ spare self.new.map }
    {
        if tally.members == 0 && tally.outside == 0 && tally.standing == 0 {
            self.map.swap_remove(&class);
        } else if let Some(held) = self.map.get_mut(&class) {
            *held = tally;
        }
    }
}

// The number of a key's class.
fn class(layout: &Layout, way: u8, key: Key) -> u64
    requires { (1 ≤ way) × (way ≤ 2) }
    ensures value { result ≡ class_of layout.now.shape way key }
    ensures classed { IsClassed layout.now.shape }
{
    layout_ranges(layout);
    let shape = layout.shape();
    let bucket = bucket(way, key, shape.buckets);
    let digest = digest(way, key, shape.digest_bits);
    (key.vip as u64 * 65_536 + bucket as u64) * 65_536 + digest as u64
}
