//! What every event keeps.

ghost use Rattle.sr_inv_facts.specs.InSweeps.{ClosedAre, SweepsAreCounted};
ghost use Rattle.sr_inv_facts.specs.Laws.{BegunKeeps, EventsKeep, OpensWith};

/// A law: sweeps are counted as the lines tell, each comes no sooner than the idle time after the last one, and a key that is just made
/// live has no quiet sweep yet; so it is at the opening, and so it stays with every event.
pub fn sweeps_are_counted()
    ensures opening { OpensWith SweepsAreCounted }
    ensures begun { BegunKeeps SweepsAreCounted }
    ensures event { EventsKeep SweepsAreCounted }
{}

/// A law: a registered key that is marked as closed had an Ending packet since it was last retired, and so had the key of each report of one in a
/// ring, unless its retirement is on and the report is still to be dropped; so it is at the opening, and so it stays with every event.
pub fn closed_have_ended()
    ensures opening { OpensWith ClosedAre }
    ensures begun { BegunKeeps ClosedAre }
    ensures event { EventsKeep ClosedAre }
{}
