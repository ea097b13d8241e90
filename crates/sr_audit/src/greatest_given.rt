ghost use Rattle.std.specs.Prelude.{◌≡◌, List, [], OnOk};
ghost use Rattle.std.specs.BTreeMap.{get};
ghost use Rattle.std.specs.List.{list_any};
ghost use Rattle.std.specs.Ordering.{nat_cmp};
ghost use Rattle.sr_law.specs.Groups.{was_given_past};
ghost use Rattle.sr_law.specs.declared.line.Line.{Line as ALine};
ghost use Rattle.sr_audit.specs.Greatest.{reaches, TellsGreatest};
ghost use Rattle.sr_audit.specs.Index.{KeptWith};

use sr_law::Line;
use std::alloc::{AllocError, Global};
use std::collections::BTreeMap;

// The greatest number of a pool that each virtual address was given.
#[derive(Drop)]
pub(crate) struct GreatestGiven {
    map: BTreeMap<u8, u64>,
}

impl GreatestGiven {
    // Of no lines.
    pub(crate) fn new(alloc: Global) -> GreatestGiven
        ensures { TellsGreatest result [] }
    {
        GreatestGiven {
            map: BTreeMap::new(alloc),
        }
    }

    // Whether this virtual address has this number or a greater one.
    fn reaches(&self, vip: u8, pool: u64) -> bool
        ensures { result ≡ reaches pool (get nat_cmp self.now.map vip) }
    {
        match self.map.get(&vip) {
            Some(greatest) => pool <= *greatest,
            None => false,
        }
    }

    // One line more.
    pub(crate) fn absorb(&mut self, line: &Line) -> Result<(), AllocError>
        ensures { OnOk result (KeptWith TellsGreatest self.old self.new line.now) }
    {
        if let Line::Given { vip, pool, .. } = *line {
            if !self.reaches(vip, pool) {
                self.map.insert(vip, pool)?;
            }
        }
        Ok(())
    }

    // Whether this virtual address was given this pool or one of a greater number.
    pub(crate) fn has_past(&self, vip: u8, pool: u64) -> bool
        ensures { (before : List ALine) → TellsGreatest self.now before → result ≡ list_any (was_given_past vip pool) before }
    {
        self.reaches(vip, pool)
    }
}
