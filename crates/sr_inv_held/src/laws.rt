//! What every event keeps.

ghost use Rattle.sr_inv_facts.specs.InHeld.{InHeld};
ghost use Rattle.sr_inv_facts.specs.Laws.{BegunKeeps, EventsKeep, OpensWith};

/// A law: each opener that a pipe held is told to the controller once, in order, and answered once, at the opening and after every event.
pub fn helds_are_kept()
    ensures opening { OpensWith InHeld }
    ensures begun { BegunKeeps InHeld }
    ensures event { EventsKeep InHeld }
{}
