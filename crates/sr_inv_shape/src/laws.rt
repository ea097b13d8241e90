//! What every event keeps.

ghost use Rattle.sr_inv_facts.specs.InShape.{InShape};
ghost use Rattle.sr_inv_facts.specs.Laws.{BegunKeeps, EventsKeep, OpensWith};

/// A law: what packets in flight have loaded, entries, jobs and changes are of the layout at the opening, and stay so with every event.
pub fn shapes_are_kept()
    ensures opening { OpensWith InShape }
    ensures begun { BegunKeeps InShape }
    ensures event { EventsKeep InShape }
{}
