ghost use Rattle.std.specs.Prelude.{◌≡◌, List, [], OnOk};
ghost use Rattle.sr_law.specs.Given.{last_given};
ghost use Rattle.sr_law.specs.declared.line.Line.{Line as ALine};
ghost use Rattle.sr_audit.specs.Index.{KeptWith};
ghost use Rattle.sr_audit.specs.LastGivings.{TellsGivings};

use sr_law::{Giving, Line};
use std::alloc::{AllocError, Global};
use std::collections::BTreeMap;

// What each virtual address was last given.
#[derive(Drop)]
pub(crate) struct LastGivings {
    map: BTreeMap<u8, Giving>,
}

impl LastGivings {
    // Of no lines.
    pub(crate) fn new(alloc: Global) -> LastGivings
        ensures { TellsGivings result [] }
    {
        LastGivings {
            map: BTreeMap::new(alloc),
        }
    }

    // One line more.
    pub(crate) fn absorb(&mut self, line: &Line) -> Result<(), AllocError>
        ensures { OnOk result (KeptWith TellsGivings self.old self.new line.now) }
    {
        if let Line::Given {
            vip,
            version,
            pool,
            ..
        } = *line
        {
            self.map.insert(vip, Giving { version, pool })?;
        }
        Ok(())
    }

    // What this one was last given.
    pub(crate) fn last(&self, vip: u8) -> Option<Giving>
        ensures { (before : List ALine) → TellsGivings self.now before → result ≡ last_given before vip }
    {
        self.map.get(&vip).copied()
    }
}
