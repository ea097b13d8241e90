ghost use Rattle.std.specs.Prelude.{◌∷◌, [], IfOk, OnOk, reverse};
ghost use Rattle.sr_law.specs.Shaped.{IsShaped};
ghost use Rattle.sr_audit.specs.Audit.{Tells};

use crate::connections::Connections;
use crate::downs::Downs;
use crate::filters::Filters;
use crate::greatest_given::GreatestGiven;
use crate::greatest_refused::GreatestRefused;
use crate::holders::Holders;
use crate::holds::Holds;
use crate::last_givings::LastGivings;
use crate::last_placed::LastPlaced;
use crate::last_retired::LastRetired;
use crate::last_sweep::LastSweep;
use crate::last_update::LastUpdate;
use crate::live_rows::LiveRows;
use crate::places::Places;
use crate::rings::Rings;
use crate::sweeps::Sweeps;
use crate::switches::Switches;
use crate::used::Used;
use crate::versions::Versions;
use sr_law::{Line, Setup};
use std::alloc::{AllocError, Global};

// What an auditor knows of the lines so far: an index for each question that a line can ask of them.
#[derive(Drop)]
pub(crate) struct Audit {
    pub(crate) update: LastUpdate,
    pub(crate) givings: LastGivings,
    pub(crate) versions: Versions,
    pub(crate) switches: Switches,
    pub(crate) connections: Connections,
    pub(crate) holders: Holders,
    pub(crate) downs: Downs,
    pub(crate) holds: Holds,
    pub(crate) filters: Filters,
    pub(crate) places: Places,
    pub(crate) rings: Rings,
    pub(crate) given: GreatestGiven,
    pub(crate) refused: GreatestRefused,
    pub(crate) rows: LiveRows,
    pub(crate) sweep: LastSweep,
    pub(crate) sweeps: Sweeps,
    pub(crate) placed: LastPlaced,
    pub(crate) retired: LastRetired,
    pub(crate) used: Used,
}

impl Audit {
    // Of no lines.
    pub(crate) fn new(alloc: Global, setup: &Setup) -> Result<Audit, AllocError>
        ensures { IfOk result (λ audit. Tells setup.now audit []) }
    {
        Ok(Audit {
            update: LastUpdate::new(setup.pools.vips()),
            givings: LastGivings::new(alloc),
            versions: Versions::new(alloc)?,
            switches: Switches::new(alloc),
            connections: Connections::new(alloc),
            holders: Holders::new(alloc),
            downs: Downs::new(alloc),
            holds: Holds::new(alloc),
            filters: Filters::new(alloc),
            places: Places::new(alloc),
            rings: Rings::new(alloc),
            given: GreatestGiven::new(alloc),
            refused: GreatestRefused::new(),
            rows: LiveRows::new(alloc),
            sweep: LastSweep::new(),
            sweeps: Sweeps::new(alloc),
            placed: LastPlaced::new(alloc),
            retired: LastRetired::new(alloc),
            used: Used::new(alloc),
        })
    }

    // One line more, after these.
    pub(crate) fn absorb(
        &mut self,
        setup: &Setup,
        before: &[Line],
        line: &Line,
    ) -> Result<(), AllocError>
        requires { IsShaped setup.now.shape }
        ensures { OnOk result (Tells setup.now self.old (reverse before.now)
            → Tells setup.now self.new (line.now ∷ reverse before.now)) }
    {
        self.update.absorb(before.len(), line);
        self.versions.absorb(line);
        self.refused.absorb(line);
        self.sweep.absorb(line);
        self.filters.absorb(&setup.shape, &self.givings, line)?;
        self.givings.absorb(line)?;
        self.switches.absorb(line)?;
        self.holders.absorb(&self.connections, line)?;
        self.connections.absorb(line)?;
        self.downs.absorb(line)?;
        self.holds.absorb(line)?;
        self.given.absorb(line)?;
        self.rows.absorb(line)?;
        self.rings.absorb(line)?;
        self.sweeps.absorb(line)?;
        self.placed.absorb(line)?;
        self.retired.absorb(line)?;
        self.used.absorb(before, line)?;
        self.places.absorb(line)
    }
}
