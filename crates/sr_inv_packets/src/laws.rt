//! What follows from the invariant.

ghost use Rattle.sr_inv_packets.specs.Filter.{KeptMarked, RecordedMarked};
ghost use Rattle.sr_inv_packets.specs.Hits.{LeaveHits};
ghost use Rattle.sr_inv_packets.specs.Learning.{OpenersLearn};
ghost use Rattle.sr_inv_packets.specs.Numbers.{FreeStandNowhere, UsedHoldPools};
ghost use Rattle.sr_inv_packets.specs.Passing.{PassedKnow};
ghost use Rattle.sr_inv_packets.specs.Placing.{DrainedMiss};
ghost use Rattle.sr_inv_packets.specs.Track.{PacketsOnTrack};

/// A law: a version number that is free is named by no word of its virtual address, by no live place, by no registered key, by no report that waits in
/// a ring, and by no packet in flight.
pub fn free_numbers_stand_nowhere()
    ensures { FreeStandNowhere }
{}

/// A law: the head and the members of each version number that isn't free hold the pool of its last Given line.
pub fn used_numbers_hold_their_pools()
    ensures { UsedHoldPools }
{}

/// A law: in Recording, once its graces and its drain have ended, each key of the virtual address that waits for a place is in the transit filter, or is
/// one that the update waits for.
pub fn recorded_keys_are_in_the_filter()
    ensures { RecordedMarked }
{}

/// A law: in Transit, each key of the virtual address that has its current version, and waits for a place or is told by a report in a ring, is in the
/// transit filter.
pub fn kept_keys_are_in_the_filter()
    ensures { KeptMarked }
{}

/// A law: once the drain of a placing has ended, its place says Reserved to no key that a report in a ring tells as learned, and to none of an opener that
/// may yet be learned.
pub fn drained_learners_miss_the_place()
    ensures { DrainedMiss }
{}

/// A law: an opener that has loaded the word of its virtual address has chosen or will choose the version that openers learn by the present word, or it
/// is or will be held, or its ring was full.
pub fn openers_learn_the_next_number()
    ensures { OpenersLearn }
{}

/// A law: while a grace runs, a packet of a pipe that has passed, and one that entered after the grace's tick, knows what was stored before it: the phase
/// of its virtual address, the place that was reserved, the entry that was made live; and it has not chosen a number that is to be free.
pub fn passed_packets_know_the_store()
    ensures { PassedKnow }
{}

/// A law: a packet in flight whose key is registered with a version, or told with it by a report in a ring, and that is an opener or entered after the
/// opening, has chosen that version; or it is or will be held, or its ring was full; or the first live place that it is still to look at has that version; or nothing will
/// match it, and its word and the present filter give that version.
pub fn packets_are_on_track()
    ensures { PacketsOnTrack }
{}

/// A law: a packet of a placed key, other than an opener, that is out has left a hit at the key's place, where it entered after the key's last Placed line,
/// after the Cleared line of a place that the entry left, and not before the end of the sweep since which the entry was quiet.
pub fn packets_leave_hits()
    ensures { LeaveHits }
{}
