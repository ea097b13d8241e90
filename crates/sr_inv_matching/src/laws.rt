//! What every event keeps.

ghost use Rattle.sr_inv_facts.specs.InMatching.{InMatching};
ghost use Rattle.sr_inv_facts.specs.Laws.{BegunKeeps, EventsKeep, OpensWith};

/// A law: an opener that nothing has matched is still to look at each place that speaks to its key, and a packet at the place where its key is live, but
/// perhaps for one that came behind it; no live place speaks to a key that is to be learned, and to a registered key only its own do; and
/// the reports behind a drain know of the reserved place. So it is at the opening, and so it stays with every event.
pub fn matching_is_kept()
    ensures opening { OpensWith InMatching }
    ensures begun { BegunKeeps InMatching }
    ensures event { EventsKeep InMatching }
{}
