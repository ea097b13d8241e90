//! What holds wherever the invariant does.

ghost use Rattle.sr_inv_facts.specs.Invariant.{Invariant};
ghost use Rattle.sr_inv_table.specs.Clearing.{FilterIsClear, RecordersAreInTime};
ghost use Rattle.sr_inv_table.specs.Cells.{RingsHold};
ghost use Rattle.sr_inv_table.specs.Drawn.{TicksHold};
ghost use Rattle.sr_inv_table.specs.Learning.{VersionsAreOne};
ghost use Rattle.sr_inv_table.specs.Loaded.{WordsAreLoaded};
ghost use Rattle.sr_inv_table.specs.Matched.{NoOtherMatches, PlacedAreSettled};
ghost use Rattle.sr_inv_table.specs.Standing.{TableHolds};
ghost use Rattle.sr_machine.specs.Core.{Core};

/// A law: the tick word is greater than every tick in a view, no tick stands in the views twice, and a note is the tick of its pipe's
/// packet from its store until it is cleared, and else 0.
pub fn ticks_are_told()
    ensures { (s : Core) → Invariant s → TicksHold s }
{}

/// A law: from the controller's place on, counted modulo the ring's length, as many cells of a ring hold reports as its pipe has pushed
/// and the controller hasn't taken; the other cells are 0.
pub fn rings_are_told()
    ensures { (s : Core) → Invariant s → RingsHold s }
{}

/// A law: every slot and row is as the book and the job say: live with its entry's version, reserved for the put under way, live until a
/// retired connection's place is emptied, or empty.
pub fn table_is_told()
    ensures { (s : Core) → Invariant s → TableHolds s }
{}

/// A law: from the store of a virtual address's word until the grace after it has ended, each packet in flight that has loaded that word
/// loaded its present value or the one before; at every other time it loaded the present value.
pub fn vip_words_are_loaded()
    ensures { (s : Core) → Invariant s → WordsAreLoaded s }
{}

/// A law: a packet that has loaded Recording, such as an opener that has places of the filter still to set, is in flight only while its
/// virtual address is in Recording, or in Holding before that phase's grace has ended.
pub fn recorded_openers_leave()
    ensures { (s : Core) → Invariant s → RecordersAreInTime s }
{}

/// A law: while no update is in progress, each word of the filter is 0.
pub fn filter_is_clear()
    ensures { (s : Core) → Invariant s → FilterIsClear s }
{}

/// A law: the entry of a key, all reports in rings that tell it as learned, and all openers of it in flight that have chosen a version and
/// may still learn it, have one version.
pub fn versions_are_one()
    ensures { (s : Core) → Invariant s → VersionsAreOne s }
{}

/// A law: a key with a Live place has no report in a ring that tells it as learned, and no opener that may learn it.
pub fn placed_keys_are_settled()
    ensures { (s : Core) → Invariant s → PlacedAreSettled s }
{}

/// A law: no live place of another key matches a key that is registered outside the full-key table, or that a report in a ring tells as
/// learned, or that an opener in flight may learn.
pub fn slots_match_no_other()
    ensures { (s : Core) → Invariant s → NoOtherMatches s }
{}
