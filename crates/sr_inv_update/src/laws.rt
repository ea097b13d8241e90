//! What every event keeps.

ghost use Rattle.sr_inv_facts.specs.InUpdate.{InUpdate, PhasesHold, VersionsKept};
ghost use Rattle.sr_inv_facts.specs.Laws.{BegunKeeps, EventsKeep, OpensWith};

/// A law: an update gives a pool that there is to a virtual address of the layout by another version than the one that it replaces, and each of its
/// steps belongs to a phase, which the word of the virtual address tells; so it is at the opening, and so it stays with every event.
pub fn phases_are_kept()
    ensures opening { OpensWith PhasesHold }
    ensures begun { BegunKeeps PhasesHold }
    ensures event { EventsKeep PhasesHold }
{}

/// A law: the versions that are Current are those that new connections may get and, in an update, the replaced one; each version's pool is that of
/// its last Given line; the versions of registered keys are in use; and what waits for keys or for a number's release has waited for
/// them. So it is at the opening, and so it stays with every event.
pub fn versions_are_kept()
    ensures opening { OpensWith VersionsKept }
    ensures begun { BegunKeeps VersionsKept }
    ensures event { EventsKeep VersionsKept }
{}

/// A law: phases and versions are kept; a change that is still to come gives a pool after all that its virtual address was given, and wasn't refused; a
/// change is refused where no version is free; and the lines of an update are a whole group, but for the open one, which is that of its
/// phase. So it is at the opening, and so it stays with every event.
pub fn updates_are_kept()
    ensures opening { OpensWith InUpdate }
    ensures begun { BegunKeeps InUpdate }
    ensures event { EventsKeep InUpdate }
{}
