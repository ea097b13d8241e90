//! What every event keeps.

ghost use Rattle.sr_inv_facts.specs.Laws.{BegunKeeps, EventsKeep, OpensWith};
ghost use Rattle.sr_inv_facts.specs.OnTrack.{OnTrack};

/// A law: an opener, and a packet that entered after its connection was opened, goes by the version with which its key is registered or learned, or is held,
/// whatever it still finds. So it is at the opening, and so it stays with every event.
pub fn track_is_kept()
    ensures opening { OpensWith OnTrack }
    ensures begun { BegunKeeps OnTrack }
    ensures event { EventsKeep OnTrack }
{}
