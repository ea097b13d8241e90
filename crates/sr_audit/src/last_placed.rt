ghost use Rattle.std.specs.Prelude.{◌≡◌, List, [], OnOk};
ghost use Rattle.sr_law.specs.Retire.{last_placed};
ghost use Rattle.sr_law.specs.declared.line.Line.{Line as ALine};
ghost use Rattle.sr_audit.specs.Index.{KeptWith};
ghost use Rattle.sr_audit.specs.LastTicks.{TellsPlaced};

use sr_base::{Key, key_ranges};
use sr_law::Line;
use std::alloc::{AllocError, Global};
use std::collections::BTreeMap;

// The tick at which an entry of each connection was last placed.
#[derive(Drop)]
pub(crate) struct LastPlaced {
    map: BTreeMap<u64, u64>,
}

impl LastPlaced {
    // Of no lines.
    pub(crate) fn new(alloc: Global) -> LastPlaced
        ensures { TellsPlaced result [] }
    {
        LastPlaced {
            map: BTreeMap::new(alloc),
        }
    }

    // One line more.
    pub(crate) fn absorb(&mut self, line: &Line) -> Result<(), AllocError>
        ensures { OnOk result (KeptWith TellsPlaced self.old self.new line.now) }
    {
        if let Line::Placed { out, key, .. } = *line {
            key_ranges(key);
            self.map.insert(key.pack(), out)?;
        }
        Ok(())
    }

    // The tick for this one, if there is one.
    pub(crate) fn last(&self, key: Key) -> Option<u64>
        ensures { (before : List ALine) → TellsPlaced self.now before → result ≡ last_placed before key }
    {
        key_ranges(key);
        self.map.get(&key.pack()).copied()
    }
}
