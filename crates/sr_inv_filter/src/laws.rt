//! What every event keeps.

ghost use Rattle.sr_inv_facts.specs.InFilter.{DrainedKept, InFilter, LearnersKept, MarkersKept, PendingKept, ReportsKept};
ghost use Rattle.sr_inv_facts.specs.Laws.{BegunKeeps, EventsKeep, OpensWith};

/// A law: an opener that may yet be learned by the version that an update gives isn't in the filter, once the switch is stored; so it is at the opening,
/// and so it stays with every event.
pub fn learners_are_kept()
    ensures opening { OpensWith LearnersKept }
    ensures begun { BegunKeeps LearnersKept }
    ensures event { EventsKeep LearnersKept }
{}

/// A law: a key whose report waits in a ring was learned by a version of the present word; once Recording is settled it is in the filter, in Transit it is
/// there with the old version and not with the new one, and once Transit is settled no report tells the old one; so it is at the opening, and so it
/// stays with every event.
pub fn ring_reports_are_kept()
    ensures opening { OpensWith ReportsKept }
    ensures begun { BegunKeeps ReportsKept }
    ensures event { EventsKeep ReportsKept }
{}

/// A law: behind the drain for Recording each key that a report tells is in the filter, and behind the one for Transit no report tells the old
/// version; so it is at the opening, and so it stays with every event.
pub fn drained_reports_are_kept()
    ensures opening { OpensWith DrainedKept }
    ensures begun { BegunKeeps DrainedKept }
    ensures event { EventsKeep DrainedKept }
{}

/// A law: a key that waits for a place was learned by a version of the present word; once Recording is settled it is in the filter, or the update waits
/// for it, in Holding it is there, and in Transit with the old version and not with the new one; so it is at the opening, and so it stays with every
/// event.
pub fn pending_keys_are_kept()
    ensures opening { OpensWith PendingKept }
    ensures begun { BegunKeeps PendingKept }
    ensures event { EventsKeep PendingKept }
{}

/// A law: from the store of Recording on, each place of the filter that is set was set by an opener of the virtual address that was sent to another pool
/// since the update was recorded, or is on its way out; so it is at the opening, and so it stays with every event.
pub fn set_places_are_kept()
    ensures opening { OpensWith MarkersKept }
    ensures begun { BegunKeeps MarkersKept }
    ensures event { EventsKeep MarkersKept }
{}

/// A law: what is said of the transit filter holds at the opening, and stays with every event.
pub fn filter_is_kept()
    ensures opening { OpensWith InFilter }
    ensures begun { BegunKeeps InFilter }
    ensures event { EventsKeep InFilter }
{}
