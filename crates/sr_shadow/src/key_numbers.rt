ghost use Rattle.std.specs.Prelude.{◌≡◌, ◌+◌, ◌<◌, ◌≤◌, List, [], ◌∷◌, ◌++◌, nat_eq, false, OnOk};
ghost use Rattle.indexmap.specs.IndexMap.{get, spare};
ghost use Rattle.sr_base.specs.Key.{packed};
ghost use Rattle.sr_shadow.specs.Book.{is_registered};
ghost use Rattle.sr_shadow.specs.KeyNumbers.{Numbered};
ghost use Rattle.sr_shadow.specs.declared.entry.Entry.{Entry as AnEntry};

use indexmap::IndexMap;
use sr_base::{Key, key_ranges};
use std::alloc::{AllocError, Global};

// From a key to the number of its entry.
#[derive(Drop)]
pub(crate) struct KeyNumbers {
    map: IndexMap<u64, u64>,
}

impl KeyNumbers {
    // Of no entry.
    pub(crate) fn new(alloc: Global) -> KeyNumbers
        ensures { Numbered (get nat_eq result.map) [] }
    {
        KeyNumbers {
            map: IndexMap::new(alloc),
        }
    }

    // Makes room for so many more.
    pub(crate) fn reserve(&mut self, additional: usize) -> Result<(), AllocError>
        ensures same { self.new.map.entries ≡ self.old.map.entries }
        ensures more { spare self.old.map ≤ spare self.new.map }
        ensures room { OnOk result (additional ≤ spare self.new.map) }
    {
        self.map.reserve(additional)
    }

    // The number of the key's entry.
    pub(crate) fn get(&self, key: Key) -> Option<u64>
        ensures { result ≡ get nat_eq self.now.map (packed key) }
    {
        self.map.get(&key.pack()).copied()
    }

    // One entry more.
    pub(crate) fn join(&mut self, key: Key, number: u64)
        requires { 0 < spare self.old.map }
        ensures more { (es : List AnEntry) (e : AnEntry) → e.key ≡ key → e.taken ≡ number → is_registered key es ≡ false
            → Numbered (get nat_eq self.old.map) es
            → Numbered (get nat_eq self.new.map) (es ++ e ∷ []) }
        ensures room { spare self.old.map ≤ spare self.new.map + 1 }
    {
        key_ranges(key);
        match self.map.insert(key.pack(), number) {
            Ok(_) => {}
            Err(_) => unreachable!(),
        }
    }

    // The key's entry less.
    pub(crate) fn drop_out(&mut self, key: Key)
        ensures less { (front back : List AnEntry) (e : AnEntry) → e.key ≡ key → is_registered key front ≡ false → is_registered key back ≡ false
            → Numbered (get nat_eq self.old.map) (front ++ e ∷ back)
            → Numbered (get nat_eq self.new.map) (front ++ back) }
        ensures room { spare self.old.map ≤ spare self.new.map }
    {
        key_ranges(key);
        self.map.swap_remove(&key.pack());
    }
}
