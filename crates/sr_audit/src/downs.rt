ghost use Rattle.std.specs.Prelude.{◌≡◌, ℕ, if◌then◌else◌, List, [], OnOk, None, Some, is_some};
ghost use Rattle.std.specs.BTreeMap.{get};
ghost use Rattle.std.specs.Ordering.{nat_cmp};
ghost use Rattle.sr_law.specs.Server.{is_number};
ghost use Rattle.sr_law.specs.TakenDown.{is_down, is_known_down};
ghost use Rattle.sr_law.specs.declared.line.Line.{Line as ALine};
ghost use Rattle.sr_audit.specs.Downs.{TellsDowns};
ghost use Rattle.sr_audit.specs.Index.{KeptWith};
ghost use Rattle.sr_audit.specs.Lately.{Falls};

use crate::lately::was_before;
use sr_law::Line;
use std::alloc::{AllocError, Global};
use std::collections::BTreeMap;

// The servers that were taken down, each with the tick of the first line of the controller after that, and the one that has no such line yet.
#[derive(Drop)]
pub(crate) struct Downs {
    since: BTreeMap<u32, Option<u64>>,
    pending: Option<u32>,
}

impl Downs {
    // Of no lines.
    pub(crate) fn new(alloc: Global) -> Downs
        ensures { TellsDowns result [] }
    {
        Downs {
            since: BTreeMap::new(alloc),
            pending: None,
        }
    }

    // The controller does something at this tick: what it did before is known now.
    fn settle(&mut self, out: u64) -> Result<(), AllocError>
        ensures settled { OnOk result ((server : ℕ) → get nat_cmp self.new.since server
            ≡ (if is_number self.old.pending server then Some (Some out) else get nat_cmp self.old.since server)) }
        ensures pending { OnOk result (self.new.pending ≡ None) }
    {
        if let Some(server) = self.pending {
            self.since.insert(server, Some(out))?;
            self.pending = None;
        }
        Ok(())
    }

    // One line more.
    pub(crate) fn absorb(&mut self, line: &Line) -> Result<(), AllocError>
        ensures { OnOk result (KeptWith TellsDowns self.old self.new line.now) }
    {
        match *line {
            Line::Packet { .. } => {}
            Line::TakenDown { out, server } => {
                self.settle(out)?;
                if !self.has(server) {
                    self.since.insert(server, None)?;
                    self.pending = Some(server);
                }
            }
            _ => self.settle(line.out())?,
        }
        Ok(())
    }

    // Whether this one was.
    pub(crate) fn has(&self, server: u32) -> bool
        ensures value { result ≡ is_some (get nat_cmp self.now.since server) }
        ensures tells { (before : List ALine) → TellsDowns self.now before → result ≡ is_down before server }
    {
        self.since.get(&server).is_some()
    }

    // Whether it is known before this tick that this one was.
    pub(crate) fn knows(&self, server: u32, tick: u64) -> bool
        ensures { (before : List ALine) → Falls before → TellsDowns self.now before
            → result ≡ is_known_down before server tick }
    {
        match self.since.get(&server) {
            Some(known) => was_before(*known, tick),
            None => false,
        }
    }
}
