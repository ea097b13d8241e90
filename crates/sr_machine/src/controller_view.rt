use crate::{HeldOpener, Job, Outage, PoolUpdate, RingCount};
use sr_base::VipWord;
use sr_law::Line;
use sr_shadow::Book;
use sr_update::{GiveChange, NumberState};
use std::collections::LinkedList;

/// What the controller knows.
pub struct ControllerView {
    /// The changes of pools that were neither begun nor refused, in order.
    pub gives: LinkedList<GiveChange>,
    /// The servers that are still to be taken down, in order.
    pub outages: LinkedList<Outage>,
    /// The capture time that it was told last, in milliseconds; none before the first.
    pub clock: Option<u64>,
    /// Whether it was told to refuse a change, and hasn't yet.
    pub refusing: bool,
    /// The registered connections.
    pub book: Book,
    /// What it has taken from each pipe's ring.
    pub rings: LinkedList<RingCount>,
    /// The held openers that aren't answered, in order.
    pub held: LinkedList<HeldOpener>,
    /// What the version numbers of each virtual address stand for, from 0.
    pub numbers: LinkedList<LinkedList<NumberState>>,
    /// The pool that each of them names, by its number; 0 for one that was never given.
    pub named: LinkedList<LinkedList<u64>>,
    /// What the word of each virtual address holds.
    pub vips: LinkedList<VipWord>,
    /// The servers that were taken down.
    pub down: LinkedList<u32>,
    /// The update that is under way.
    pub update: Option<PoolUpdate>,
    /// How many entries were ever taken when the update's first drain ended: those before are to be placed before it goes on.
    pub mark: u64,
    /// How many sweeps have ended.
    pub sweeps: u64,
    /// The capture time of the last one, in milliseconds; 0 before the first.
    pub swept_ms: u64,
    /// Its next step.
    pub job: Job,
    /// How many ticks it has drawn.
    pub drawn: u64,
    /// Its lines, by rising `out`, from the opening ones on.
    pub lines: LinkedList<Line>,
}
