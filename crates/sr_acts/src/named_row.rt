ghost use Rattle.std.specs.Prelude.{◌≡◌, ◌∷◌, ◌-◌, ◌<◌, ◌≤◌, length, replicate, slice_index, slice_set};

use std::marker::Model;

// The pools that the versions of a virtual address name, by their numbers; 0 for a version that was never given.
#[derive(Drop)]
pub(crate) struct NamedRow {
    pools: [u64; 64],
    versions: u8,
}

impl Model for NamedRow {
    ghost use Rattle.std.specs.Prelude.{◌≤◌, ℕ, List, take};

    ghost Value = { List ℕ };

    ghost view = { λ r. take r.versions r.pools };

    ghost invariant = { λ r. r.versions ≤ 64 };
}

impl NamedRow {
    // Version 0 names pool 1, the others none.
    pub(crate) fn new(versions: u8) -> NamedRow
        requires some { 1 ≤ versions }
        requires most { versions ≤ 64 }
        ensures { result ≡ 1 ∷ replicate (versions - 1) 0 }
    {
        let mut row = NamedRow {
            pools: no_pools(),
            versions,
        };
        row.put(0, 1);
        row
    }

    // The pool that a version names.
    pub(crate) fn get(&self, version: u8) -> u64
        ensures { result ≡ slice_index self.now version }
    {
        if version < self.versions {
            self.pools[version as usize]
        } else {
            0
        }
    }

    // A version names a pool.
    pub(crate) fn put(&mut self, version: u8, pool: u64)
        requires { version < length self.old }
        ensures { self.new ≡ slice_set self.old version pool }
    {
        self.pools[version as usize] = pool;
    }
}

// No pool for each of 64 versions.
fn no_pools() -> [u64; 64]
    ensures { result ≡ replicate 64 0 }
{
    [0; 64]
}
