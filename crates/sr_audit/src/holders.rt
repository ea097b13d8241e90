ghost use Rattle.std.specs.Prelude.{◌≡◌, ◌&&◌, ◌==◌, List, [], OnOk};
ghost use Rattle.sr_law.specs.Number.{is_held_open};
ghost use Rattle.sr_law.specs.declared.line.Line.{Line as ALine};
ghost use Rattle.sr_audit.specs.Connections.{TellsConnections};
ghost use Rattle.sr_audit.specs.Holders.{KeepsHolders, TellsHolders};

use crate::connections::Connections;
use sr_base::Key;
use sr_law::{Line, Opening, opened_by};
use std::alloc::{AllocError, Global};
use std::collections::BTreeSet;

// The holder is of this virtual address and version.
fn has_version(holder: (u8, u8, u32, u16), vip: u8, version: u8) -> bool
    ensures { result ≡ (holder.0 == vip && holder.1 == version) }
{
    holder.0 == vip && holder.1 == version
}

// Who holds what, where this connection was opened so.
fn holder(key: Key, opening: Opening) -> (u8, u8, u32, u16)
    ensures { result ≡ (key.vip, opening.version, key.ip, key.port) }
{
    (key.vip, opening.version.number(), key.ip, key.port)
}

// The connections that are open, by what each holds: a virtual address and the version that it was opened with. After these stand the
// client's address and port.
#[derive(Drop)]
pub(crate) struct Holders {
    set: BTreeSet<(u8, u8, u32, u16)>,
}

impl Holders {
    // Of no lines.
    pub(crate) fn new(alloc: Global) -> Holders
        ensures { TellsHolders result [] }
    {
        Holders {
            set: BTreeSet::new(alloc),
        }
    }

    // One line more, where these connections are open before it.
    pub(crate) fn absorb(
        &mut self,
        connections: &Connections,
        line: &Line,
    ) -> Result<(), AllocError>
        ensures { OnOk result (KeepsHolders connections.now self.old self.new line.now) }
    {
        if let Some(key) = line.key() {
            if let Line::Retired { .. } = line {
                if let Some(opening) = connections.opening(key) {
                    self.set.remove(&holder(key, opening));
                }
            } else if connections.opening(key).is_none() {
                if let Some(opening) = opened_by(line, key) {
                    self.set.insert(holder(key, opening))?;
                }
            }
        }
        Ok(())
    }

    // Some open connection of this virtual address has this version.
    pub(crate) fn hold(&self, vip: u8, version: u8) -> bool
        ensures { (before : List ALine) → TellsHolders self.now before → result ≡ is_held_open before vip version }
    {
        match self.set.range((vip, version, 0, 0)..).next() {
            Some(holder) => has_version(*holder, vip, version),
            None => false,
        }
    }
}
