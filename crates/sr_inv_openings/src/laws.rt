//! What every event keeps.

ghost use Rattle.sr_inv_facts.specs.InOpenings.{InOpenings};
ghost use Rattle.sr_inv_facts.specs.Laws.{BegunKeeps, EventsKeep, OpensWith};

/// A law: a connection is open exactly where an opener of it was sent by the version that the controller registers, or is about to; what a report tells
/// is what an opener was sent by, and of a key whose opener is to be answered Down nothing is learned; so it is at the opening, and so it stays
/// with every event.
pub fn openings_are_kept()
    ensures opening { OpensWith InOpenings }
    ensures begun { BegunKeeps InOpenings }
    ensures event { EventsKeep InOpenings }
{}
