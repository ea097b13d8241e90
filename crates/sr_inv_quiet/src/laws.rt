//! What every event keeps.

ghost use Rattle.sr_inv_facts.specs.InSweeps.{InSweeps};
ghost use Rattle.sr_inv_facts.specs.Laws.{BegunKeeps, EventsKeep, OpensWith};

/// A law: sweeps are counted as the lines tell, and a closed connection had an Ending packet; a connection that was quiet for some of the sweeps that
/// went by its entry was placed before the first of them began, and none of its packets that use entries entered after that one and was out before
/// the last of them began; such a packet that entered since the entry stands where it stands finds it, goes by its version, and leaves a hit there; so
/// it is at the opening, and so it stays with every event.
pub fn sweeps_are_kept()
    ensures opening { OpensWith InSweeps }
    ensures begun { BegunKeeps InSweeps }
    ensures event { EventsKeep InSweeps }
{}
