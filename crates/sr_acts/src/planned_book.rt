ghost use Rattle.std.specs.Prelude.{◌≡◌, ◌+◌, ◌<◌, ◌≤◌, true, find, IfOk, IfSome, OnOk};
ghost use Rattle.sr_acts.specs.Fits.{FitsAim, FitsPlan, FitsPut};
ghost use Rattle.sr_acts.specs.Pending.{IsAsked, SettlesInSlot, awaits, has_put, number_of};
ghost use Rattle.sr_base.specs.WordName.{HasPlace};
ghost use Rattle.sr_machine.specs.Starting.{first_put, planned_put};
ghost use Rattle.sr_machine.specs.declared.put.Aim.TheVariants.{Pending};
ghost use Rattle.sr_shadow.specs.Book.{empty_book, holder_of, IsAlone, most_taken, with_closed, with_left, with_retired, with_settled, with_swept, with_taken};
ghost use Rattle.sr_shadow.specs.Entry.{is_pending, is_slot};
ghost use Rattle.sr_shadow.specs.Plan.{IsUnplaced, first_plan};

use crate::asking::put_of;
use crate::awaiting::Awaiting;
use sr_base::{Key, Layout, Place, Version};
use sr_machine::{Aim, Put};
use sr_plan::plan_in;
use sr_shadow::{Entry, Ledger, Plan, ledger_rules, own_places_stand, plans_give};
use std::alloc::{AllocError, Global};
use std::marker::Model;

/// The controller's book, which remembers how far its pending entries were asked in vain: no pending key that was taken before a number has a plan, and
/// an update waits for none that was taken before another one. So a key without a plan is asked once, until something may make room for it.
#[derive(Drop)]
pub struct PlannedBook {
    alloc: Global,
    layout: Layout,
    ledger: Ledger,
    unplanned: u64,
    awaiting: Awaiting,
    unawaited: u64,
}

impl Model for PlannedBook {
    ghost use Rattle.std.specs.Prelude.{◌≡◌};
    ghost use Rattle.sr_acts.specs.Pending.{IsAsked, awaits, has_put};
    ghost use Rattle.sr_shadow.specs.Ledger.{LedgerView};

    ghost Value = { LedgerView };

    ghost view = { λ b. b.ledger };

    ghost invariant = { λ b. (b.ledger.layout ≡ b.layout)
        × IsAsked (has_put b.layout.shape b.ledger.book.entries) b.unplanned b.ledger.book
        × IsAsked (awaits b.awaiting) b.unawaited b.ledger.book };
}

impl PlannedBook {
    /// The empty book of a layout.
    pub fn new(alloc: Global, layout: &Layout) -> Result<PlannedBook, AllocError>
        ensures layout { IfOk result (λ b. b.layout ≡ layout.now) }
        ensures book { IfOk result (λ b. b.book ≡ empty_book) }
    {
        let ledger = Ledger::new(alloc, layout)?;
        Ok(PlannedBook {
            alloc,
            layout: *layout,
            ledger,
            unplanned: 0,
            awaiting: Awaiting::BeforeHold { vip: 0, mark: 0 },
            unawaited: 0,
        })
    }

    /// Makes room for at least so many more entries.
    pub fn reserve(&mut self, entries: usize) -> Result<(), AllocError>
        ensures layout { self.new.layout ≡ self.old.layout }
        ensures book { self.new.book ≡ self.old.book }
        ensures room { OnOk result (entries ≤ self.new.room) }
        ensures kept { self.old.room ≤ self.new.room }
    {
        self.ledger.reserve(self.alloc, entries)
    }

    /// The book itself.
    pub fn ledger(&self) -> &Ledger
        ensures { result.now ≡ self.now }
    {
        &self.ledger
    }

    // ---- changes

    /// A key is taken: it is registered with this version, if it wasn't.
    pub fn take(&mut self, key: Key, version: Version)
        requires few { self.old.book.taken < most_taken }
        requires room { 0 < self.old.room }
        ensures layout { self.new.layout ≡ self.old.layout }
        ensures book { self.new.book ≡ with_taken key version self.old.book }
        ensures room { self.old.room ≤ self.new.room + 1 }
    {
        self.ledger.take(key, version);
    }

    /// A report that the key's connection ended was taken.
    pub fn close(&mut self, key: Key)
        ensures layout { self.new.layout ≡ self.old.layout }
        ensures book { self.new.book ≡ with_closed key self.old.book }
        ensures room { self.old.room ≤ self.new.room }
    {
        self.ledger.close(key);
    }

    /// The key is live at the place; the one before is still held. A pending key that settles in a slot makes no room.
    pub fn settle(&mut self, key: Key, place: Place)
        requires has { HasPlace self.old.layout.shape place }
        requires alone { IsAlone key self.old.book.entries }
        requires free { holder_of place self.old.book.entries ≡ None }
        ensures layout { self.new.layout ≡ self.old.layout }
        ensures book { self.new.book ≡ with_settled key place self.old.book }
        ensures room { self.old.room ≤ self.new.room }
    {
        let unplanned = self.unplanned_after(key, place);
        self.ledger.settle(key, place);
        self.unplanned = unplanned;
    }

    /// The key holds its live place alone.
    pub fn leave(&mut self, key: Key)
        ensures layout { self.new.layout ≡ self.old.layout }
        ensures book { self.new.book ≡ with_left key self.old.book }
        ensures room { self.old.room ≤ self.new.room }
    {
        self.ledger.leave(key);
        self.unplanned = 0;
    }

    /// A sweep went by the key's place, and found a hit there or found none.
    pub fn sweep(&mut self, key: Key, hit: bool)
        ensures layout { self.new.layout ≡ self.old.layout }
        ensures book { self.new.book ≡ with_swept key hit self.old.book }
        ensures room { self.old.room ≤ self.new.room }
    {
        self.ledger.sweep(key, hit);
    }

    /// The key's entry is out.
    pub fn retire(&mut self, key: Key)
        ensures layout { self.new.layout ≡ self.old.layout }
        ensures book { self.new.book ≡ with_retired key self.old.book }
        ensures room { self.old.room ≤ self.new.room }
    {
        self.ledger.retire(key);
        self.unplanned = 0; // its place is free for another key
    }

    // From which number on a pending key may have a plan once this one has settled.
    fn unplanned_after(&self, key: Key, place: Place) -> u64
        requires { IsAlone key self.now.book.entries }
        ensures { IsAsked (has_put self.now.layout.shape (with_settled key place self.now.book).entries) result (with_settled key place self.now.book) }
    {
        ledger_rules(&self.ledger);
        if self.makes_no_room(key, place) {
            self.unplanned
        } else {
            0
        }
    }

    // Whether a pending key settles in a slot.
    fn makes_no_room(&self, key: Key, place: Place) -> bool
        ensures { result ≡ true → SettlesInSlot key place self.now.book.entries }
    {
        match self.ledger.get(key) {
            Some(entry) => entry.place.is_none() && is_slot(place),
            None => false,
        }
    }

    // ---- what is asked of pending entries

    /// The first put of a pending key.
    pub fn first_put(&self) -> Option<Put>
        ensures value { result ≡ first_put self.now.layout.shape self.now.book.entries self.now.book.entries }
        ensures fits { IfSome result (FitsPut self.now.layout.shape) }
    {
        match self.first_planned() {
            Some(entry) => self.planned_put(entry.key, &Aim::Pending),
            None => None,
        }
    }

    /// The put of a key without a live place.
    pub fn planned_put(&self, key: Key, aim: &Aim) -> Option<Put>
        requires aim { FitsAim self.now.layout.shape aim.now }
        requires unplaced { IsUnplaced key self.now.book.entries }
        ensures value { result ≡ planned_put self.now.layout.shape self.now.book.entries key aim.now }
        ensures fits { IfSome result (FitsPut self.now.layout.shape) }
    {
        let plan = self.plan_of(key);
        put_of(&self.layout, key, aim, &plan)
    }

    // The plan of a key. Its places are the tables'.
    fn plan_of(&self, key: Key) -> Plan
        requires { IsUnplaced key self.now.book.entries }
        ensures value { result ≡ first_plan self.now.layout.shape self.now.book.entries key }
        ensures fits { FitsPlan self.now.layout.shape result }
    {
        own_places_stand(&self.layout);
        plans_give();
        plan_in(&self.ledger, &self.layout, key)
    }

    // The first entry for which an update waits.
    pub(crate) fn first_awaited(&self, awaiting: &Awaiting) -> Option<Entry>
        ensures { result ≡ find (awaits awaiting.now) self.now.book.entries }
    {
        ledger_rules(&self.ledger);
        let mut number = self.asked(awaiting);
        while let Some(entry) = self.ledger.first_pending(number) {
            if awaiting.awaits(entry) {
                return Some(*entry);
            }
            number = entry.taken + 1;
        }
        None
    }

    // The first pending entry whose key has a plan.
    fn first_planned(&self) -> Option<Entry>
        ensures value { result ≡ find (has_put self.now.layout.shape self.now.book.entries) self.now.book.entries }
        ensures pending { IfSome result (λ e. is_pending e ≡ true) }
        ensures unplaced { IfSome result (λ e. IsUnplaced e.key self.now.book.entries) }
    {
        ledger_rules(&self.ledger);
        let mut number = self.unplanned;
        while let Some(entry) = self.ledger.first_pending(number) {
            if self.planned_put(entry.key, &Aim::Pending).is_some() {
                return Some(*entry);
            }
            number = entry.taken + 1;
        }
        None
    }

    // From which number on an update is still to be asked for the entry that it waits for.
    fn asked(&self, awaiting: &Awaiting) -> u64
        ensures { IsAsked (awaits awaiting.now) result self.now.book }
    {
        if awaiting.is(&self.awaiting) {
            self.unawaited
        } else {
            0
        }
    }

    /// Remembers how far its pending entries are asked in vain, for their plans, and for this update, if there is one.
    pub(crate) fn look_ahead(&mut self, awaiting: Option<Awaiting>)
        ensures { self.new ≡ self.old }
    {
        let awaiting = awaiting.unwrap_or(self.awaiting);
        let unplanned = self.still_unplanned();
        let unawaited = self.still_unawaited(&awaiting);
        self.unplanned = unplanned;
        self.awaiting = awaiting;
        self.unawaited = unawaited;
    }

    // From which number on a pending key may have a plan.
    fn still_unplanned(&self) -> u64
        ensures { IsAsked (has_put self.now.layout.shape self.now.book.entries) result self.now.book }
    {
        ledger_rules(&self.ledger);
        self.number_of(self.first_planned())
    }

    // From which number on an update may wait for an entry.
    fn still_unawaited(&self, awaiting: &Awaiting) -> u64
        ensures { IsAsked (awaits awaiting.now) result self.now.book }
    {
        ledger_rules(&self.ledger);
        self.number_of(self.first_awaited(awaiting))
    }

    // The number of an entry, or how many were ever taken.
    fn number_of(&self, entry: Option<Entry>) -> u64
        ensures { result ≡ number_of entry self.now.book.taken }
    {
        match entry {
            Some(entry) => entry.taken,
            None => self.ledger.taken(),
        }
    }
}

// Whether a place is a slot.
fn is_slot(place: Place) -> bool
    ensures { result ≡ is_slot place }
{
    match place {
        Place::Slot { .. } => true,
        Place::Row { .. } => false,
    }
}
