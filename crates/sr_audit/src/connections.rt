ghost use Rattle.std.specs.Prelude.{◌≡◌, List, [], OnOk};
ghost use Rattle.sr_law.specs.Opening.{opening};
ghost use Rattle.sr_law.specs.declared.line.Line.{Line as ALine};
ghost use Rattle.sr_audit.specs.Connections.{TellsConnections};
ghost use Rattle.sr_audit.specs.Index.{KeptWith};

use sr_base::{Key, key_ranges};
use sr_law::{Line, Opening, opened_by};
use std::alloc::{AllocError, Global};
use std::collections::BTreeMap;

// The openings of the connections that are open.
#[derive(Drop)]
pub(crate) struct Connections {
    map: BTreeMap<u64, Opening>,
}

impl Connections {
    // Of no lines.
    pub(crate) fn new(alloc: Global) -> Connections
        ensures { TellsConnections result [] }
    {
        Connections {
            map: BTreeMap::new(alloc),
        }
    }

    // One line more.
    pub(crate) fn absorb(&mut self, line: &Line) -> Result<(), AllocError>
        ensures { OnOk result (KeptWith TellsConnections self.old self.new line.now) }
    {
        if let Some(key) = line.key() {
            key_ranges(key);
            let packed = key.pack();
            if let Line::Retired { .. } = line {
                self.map.remove(&packed);
            } else if let Some(opening) = opened_by(line, key) {
                if self.map.get(&packed).is_none() {
                    self.map.insert(packed, opening)?;
                }
            }
        }
        Ok(())
    }

    // The opening of this one.
    pub(crate) fn opening(&self, key: Key) -> Option<Opening>
        ensures { (before : List ALine) → TellsConnections self.now before → result ≡ opening before key }
    {
        key_ranges(key);
        self.map.get(&key.pack()).copied()
    }
}
