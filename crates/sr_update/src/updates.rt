ghost use Rattle.std.specs.Prelude.{◌≡◌, ◌^◌, ◌<◌, ◌≤◌, ◌∷◌, ◌++◌, List, [], length, drop, OnOk, Some, None, IfOk, IsSome, option_map};
ghost use Rattle.std.specs.List.{AllByRecursion};
ghost use Rattle.sr_base.specs.Fitting.{IsInTime};
ghost use Rattle.sr_base.specs.declared.change.Change.{Change as AChange};
ghost use Rattle.sr_update.specs.Numbers.{least_free};
ghost use Rattle.sr_update.specs.declared.give_change.GiveChange.{GiveChange as AGive};
ghost use Rattle.sr_update.specs.Updates.{Pooled, give_of, gives_after, first_due, with_first_gone, begin_of, left_by, IsLater};

use crate::{Begin, GiveChange, Numbers};
use sr_base::{Change, What};
use std::alloc::{AllocError, Global};
use std::marker::Model;

/// The changes that give a virtual address another pool and were neither taken nor dropped, in order, and the clock.
/// The other changes aren't looked at.
#[derive(Drop)]
pub struct Updates {
    gives: Vec<GiveChange>,
    next: usize,
    clock: Option<u64>,
}

impl Model for Updates {
    ghost use Rattle.std.specs.Prelude.{◌≤◌, drop, length};
    ghost use Rattle.sr_update.specs.Updates.{UpdatesView, IsInOrder};

    ghost Value = { UpdatesView };

    ghost view = { λ u. record { gives = drop u.next u.gives.items; clock = u.clock } };

    ghost invariant = { λ u. (u.next ≤ length u.gives.items) × IsInOrder 0 (drop u.next u.gives.items) };
}

impl Updates {
    /// Those of a list of changes. The clock has no time yet, so none is due.
    pub fn new(alloc: Global, changes: &[Change]) -> Result<Updates, AllocError>
        requires few { length changes.now < 2 ^ 32 }
        requires in_time { IsInTime 0 changes.now }
        ensures { IfOk result (λ u. u ≡ record { gives = gives_after [] changes.now; clock = None }) }
    {
        let mut pools = vec![in alloc; 2; 256]?;
        let mut gives = Vec::new(alloc);
        for (position, change) in changes.iter().enumerate() {
            note(&mut pools, &mut gives, position as u32, change)?;
        }
        Ok(Updates {
            gives,
            next: 0,
            clock: None,
        })
    }

    /// Sets the clock, in milliseconds of capture time.
    pub fn due(&mut self, ms: u64)
        requires { IsLater self.old.clock ms }
        ensures { self.new ≡ record self.old { clock = Some ms } }
    {
        self.clock = Some(ms);
    }

    /// The changes, in order.
    pub fn gives(&self) -> &[GiveChange]
        ensures { result.now ≡ self.now.gives }
    {
        &self.gives[self.next..]
    }

    /// The clock: none before it is set.
    pub fn clock(&self) -> Option<u64>
        ensures { result ≡ self.now.clock }
    {
        self.clock
    }

    /// The first change goes, due or not; where there is none nothing changes.
    pub fn drop_first(&mut self)
        ensures { self.new ≡ record self.old { gives = drop 1 self.old.gives } }
    {
        if self.next < self.gives.len() {
            self.next = self.next + 1;
        }
    }

    /// The first change that is due.
    pub fn first_due(&self) -> Option<GiveChange>
        ensures { result ≡ first_due self.now }
    {
        if self.next >= self.gives.len() {
            return None;
        }
        let give = self.gives[self.next];
        match self.clock {
            Some(ms) => { if give.at_ms <= ms { Some(give) } else { None } }
            None => None,
        }
    }

    /// Begins the first update that is due: takes its change where its virtual address has a Free number, and else
    /// changes nothing.
    pub fn begin(&mut self, numbers: &Numbers) -> Begin
        requires { AllByRecursion (λ give. give.vip < length numbers.now) self.old.gives }
        ensures answer { result ≡ begin_of numbers.now (first_due self.old) }
        ensures left { self.new ≡ left_by result self.old }
    {
        match self.first_due() {
            None => Begin::EmptyQueue,
            Some(give) => match numbers.least_free(give.vip) {
                None => Begin::VersionsFull { vip: give.vip },
                Some(version) => {
                    self.pass();
                    Begin::Started {
                        vip: give.vip,
                        version,
                        pool: give.pool,
                    }
                }
            },
        }
    }

    /// Drops the first change that is due, whose virtual address has no Free number, and answers its position among
    /// all changes, from 0.
    pub fn refuse(&mut self, numbers: &Numbers) -> u32
        requires vips { AllByRecursion (λ give. give.vip < length numbers.now) self.old.gives }
        requires full { (give : AGive) × (first_due self.old ≡ Some give) × (least_free give.vip numbers.now ≡ None) }
        ensures position { Some result ≡ option_map (λ give. give.position) (first_due self.old) }
        ensures dropped { self.new ≡ with_first_gone self.old }
    {
        match self.first_due() {
            Some(give) => {
                self.pass();
                give.position
            }
            None => unreachable!(),
        }
    }

    // The first change that is due goes.
    fn pass(&mut self)
        requires { IsSome (first_due self.old) }
        ensures { self.new ≡ with_first_gone self.old }
    {
        self.next += 1;
    }
}

// Appends what a change gives, after those before it. The next pool number of each virtual address stands in `pools`.
fn note(
    pools: &mut Vec<u64>,
    gives: &mut Vec<GiveChange>,
    position: u32,
    change: &Change,
) -> Result<(), AllocError>
    requires { (before : List AChange) × Pooled pools.old.items before × (length before ≡ position) }
    ensures { OnOk result ((before : List AChange) → Pooled pools.old.items before → length before ≡ position
        → (gives.new.items ≡ gives.old.items ++ give_of before change.now.at_ms change.now.what)
        × Pooled pools.new.items (before ++ change.now ∷ [])) }
{
    match &change.what {
        What::Give { vip, .. } => {
            let at = *vip as usize;
            let pool = pools[at];
            gives.push(GiveChange {
                at_ms: change.at_ms,
                position,
                vip: *vip,
                pool,
            })?;
            pools[at] = pool + 1;
        }
        What::TakeDown { .. } => {}
    }
    Ok(())
}
