ghost use Rattle.std.specs.Prelude.{◌≡◌, ℕ, ◌==◌, if◌then◌else◌, List, [], OnOk, Some};
ghost use Rattle.std.specs.BTreeMap.{get};
ghost use Rattle.std.specs.Ordering.{nat_cmp};
ghost use Rattle.sr_law.specs.Held.{last_hold, may_hold, not_finished};
ghost use Rattle.sr_law.specs.declared.line.Line.{Line as ALine};
ghost use Rattle.sr_audit.specs.Holds.{finished_at, holds_at, lasts_at, switched_at, TellsHolds};
ghost use Rattle.sr_audit.specs.Index.{KeptWith};
ghost use Rattle.sr_audit.specs.Lately.{Falls};

use crate::lately::was_before;
use sr_law::Line;
use std::alloc::{AllocError, Global};
use std::collections::BTreeMap;

// An update that holds its virtual address: since when, and when it was first switched and first finished after that.
#[derive(Clone, Copy)]
pub(crate) struct Holding {
    tick: u64,
    switched: Option<u64>,
    finished: Option<u64>,
}

impl Holding {
    // It is switched at this tick.
    fn switch(self, out: u64) -> Holding
        ensures { result ≡ switched_at out self }
    {
        Holding {
            switched: self.switched.or(Some(out)),
            ..self
        }
    }

    // It is finished at this tick.
    fn finish(self, out: u64) -> Holding
        ensures { result ≡ finished_at out self }
    {
        Holding {
            finished: self.finished.or(Some(out)),
            ..self
        }
    }
}

// It wasn't switched before this tick.
fn holds_at(holding: Option<Holding>, start: u64) -> bool
    ensures { result ≡ holds_at holding start }
{
    match holding {
        Some(holding) => !was_before(holding.switched, start),
        None => false,
    }
}

// It wasn't finished before this tick.
fn lasts_at(holding: Option<Holding>, start: u64) -> bool
    ensures { result ≡ lasts_at holding start }
{
    match holding {
        Some(holding) => !was_before(holding.finished, start),
        None => false,
    }
}

// What the last Hold line of each virtual address began.
#[derive(Drop)]
pub(crate) struct Holds {
    map: BTreeMap<u8, Holding>,
}

impl Holds {
    // Of no lines.
    pub(crate) fn new(alloc: Global) -> Holds
        ensures { TellsHolds result [] }
    {
        Holds {
            map: BTreeMap::new(alloc),
        }
    }

    // What this virtual address's began.
    fn holding(&self, vip: u8) -> Option<Holding>
        ensures { result ≡ get nat_cmp self.now.map vip }
    {
        self.map.get(&vip).copied()
    }

    // It is this from now on.
    fn put(&mut self, vip: u8, holding: Holding) -> Result<(), AllocError>
        ensures { OnOk result ((q : ℕ) → get nat_cmp self.new.map q ≡ (if vip == q then Some holding else get nat_cmp self.old.map q)) }
    {
        self.map.insert(vip, holding)?;
        Ok(())
    }

    // One line more.
    pub(crate) fn absorb(&mut self, line: &Line) -> Result<(), AllocError>
        ensures { OnOk result (KeptWith TellsHolds self.old self.new line.now) }
    {
        match *line {
            Line::Hold { out, vip } => self.put(
                vip,
                Holding {
                    tick: out,
                    switched: None,
                    finished: None,
                },
            ),
            Line::Switched { out, vip, .. } => match self.holding(vip) {
                Some(holding) => self.put(vip, holding.switch(out)),
                None => Ok(()),
            },
            Line::Finished { out, vip } => match self.holding(vip) {
                Some(holding) => self.put(vip, holding.finish(out)),
                None => Ok(()),
            },
            _ => Ok(()),
        }
    }

    // Whether an opener of this virtual address that started at this tick may be held by its update.
    pub(crate) fn may_hold(&self, vip: u8, start: u64) -> bool
        ensures { (before : List ALine) → Falls before → TellsHolds self.now before → result ≡ may_hold before vip start }
    {
        holds_at(self.holding(vip), start)
    }

    // Whether its update wasn't finished before this tick.
    pub(crate) fn is_unfinished(&self, vip: u8, start: u64) -> bool
        ensures { (before : List ALine) → Falls before → TellsHolds self.now before
            → result ≡ not_finished before vip start (last_hold before vip) }
    {
        lasts_at(self.holding(vip), start)
    }
}
