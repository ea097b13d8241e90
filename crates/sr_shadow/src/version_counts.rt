ghost use Rattle.std.specs.Prelude.{◌≡◌, ◌<◌, List, [], IfOk};
ghost use Rattle.sr_shadow.specs.Book.{count_of};
ghost use Rattle.sr_shadow.specs.Index.{KeptWith, KeptWithout};
ghost use Rattle.sr_shadow.specs.VersionCounts.{cell_of, Counted, FewCounted, HasCounted};
ghost use Rattle.sr_shadow.specs.declared.entry.Entry.{Entry as AnEntry};

use crate::Entry;
use sr_base::Version;
use std::alloc::{AllocError, Global};
use std::marker::Model;

// How many registered keys have a virtual address and a version.
#[derive(Drop)]
pub(crate) struct VersionCounts {
    table: Vec<u64>,
}

impl Model for VersionCounts {
    ghost use Rattle.std.specs.Prelude.{◌≡◌, ℕ, List, length};

    ghost Value = { List ℕ };

    ghost view = { λ c. c.table.items };

    ghost invariant = { λ c. length c.table.items ≡ 1024 };
}

impl VersionCounts {
    // Of no entry.
    pub(crate) fn new(alloc: Global) -> Result<VersionCounts, AllocError>
        ensures { IfOk result (λ c. Counted c []) }
    {
        Ok(VersionCounts {
            table: vec![in alloc; 0; 1024]?,
        })
    }

    // How many have these.
    pub(crate) fn count(&self, vip: u8, version: Version) -> u64
        requires { vip < 16 }
        ensures { (es : List AnEntry) → Counted self.now es → result ≡ count_of vip version es }
    {
        self.table[vip as usize * 64 + version.number() as usize]
    }

    // One entry more.
    #[tactic(auto, using(crate::proofs::Tables::counted_more, crate::proofs::Tables::counted_few))]
    pub(crate) fn join(&mut self, entry: &Entry)
        requires { FewCounted self.old }
        ensures { KeptWith Counted self.old self.new entry.now }
    {
        let at = cell(entry);
        self.table[at] += 1;
    }

    // The entry's less.
    #[tactic(auto, using(crate::proofs::Tables::counted_less, crate::proofs::Tables::counted_one))]
    pub(crate) fn drop_out(&mut self, entry: &Entry)
        requires { HasCounted self.old entry.now }
        ensures { KeptWithout Counted self.old self.new entry.now }
    {
        let at = cell(entry);
        self.table[at] -= 1;
    }
}

// Where an entry is counted.
fn cell(entry: &Entry) -> usize
    ensures value { result ≡ cell_of entry.now.key.vip entry.now.version }
    ensures vip { entry.now.key.vip < 16 }
    ensures version { entry.now.version < 64 }
{
    let key = &entry.key;
    key.vip as usize * 64 + entry.version.number() as usize
}
