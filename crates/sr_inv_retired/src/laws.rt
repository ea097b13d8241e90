//! What every event keeps.

ghost use Rattle.sr_inv_facts.specs.Laws.{BegunKeeps, EventsKeep, OpensWith};
ghost use Rattle.sr_inv_retired.specs.Retirements.{RetirementsKept};

/// A law: at every moment sweeps are numbered one after another, no sooner than the idle time after the last one, and each connection that was retired was open and
/// quiet for so many sweeps, or for one where an Ending packet of it had entered; so it is at the opening, and so it stays with every event.
pub fn retirements_are_kept()
    ensures opening { OpensWith RetirementsKept }
    ensures begun { BegunKeeps RetirementsKept }
    ensures event { EventsKeep RetirementsKept }
{}
