//! What every event keeps.

ghost use Rattle.sr_inv_facts.specs.InJobs.{InJobs};
ghost use Rattle.sr_inv_facts.specs.Laws.{BegunKeeps, EventsKeep, OpensWith};

/// A law: no place is held twice, what a job puts, empties, retires or answers stands so in the book, and by the lines a place is taken by who holds
/// it or is about to; so it is at the opening, and so it stays with every event.
pub fn jobs_are_kept()
    ensures opening { OpensWith InJobs }
    ensures begun { BegunKeeps InJobs }
    ensures event { EventsKeep InJobs }
{}
