ghost use Rattle.std.specs.Prelude.{◌≡◌, List, [], OnOk};
ghost use Rattle.sr_law.specs.Retire.{last_retired};
ghost use Rattle.sr_law.specs.declared.line.Line.{Line as ALine};
ghost use Rattle.sr_audit.specs.Index.{KeptWith};
ghost use Rattle.sr_audit.specs.LastTicks.{TellsRetired};

use sr_base::{Key, key_ranges};
use sr_law::Line;
use std::alloc::{AllocError, Global};
use std::collections::BTreeMap;

// The tick at which each connection was last retired.
#[derive(Drop)]
pub(crate) struct LastRetired {
    map: BTreeMap<u64, u64>,
}

impl LastRetired {
    // Of no lines.
    pub(crate) fn new(alloc: Global) -> LastRetired
        ensures { TellsRetired result [] }
    {
        LastRetired {
            map: BTreeMap::new(alloc),
        }
    }

    // One line more.
    pub(crate) fn absorb(&mut self, line: &Line) -> Result<(), AllocError>
        ensures { OnOk result (KeptWith TellsRetired self.old self.new line.now) }
    {
        if let Line::Retired { out, key } = *line {
            key_ranges(key);
            self.map.insert(key.pack(), out)?;
        }
        Ok(())
    }

    // The tick for this one, or 0.
    pub(crate) fn last(&self, key: Key) -> u64
        ensures { (before : List ALine) → TellsRetired self.now before → result ≡ last_retired before key }
    {
        key_ranges(key);
        self.map.get(&key.pack()).copied().unwrap_or(0)
    }
}
