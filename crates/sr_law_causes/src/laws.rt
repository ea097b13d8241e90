//! What a list that breaks no clause means in plain words, and what it can't have.

ghost use Rattle.sr_law_causes.specs.Laws.{FewFindRoom, FreeRowsGivePlaces, NothingHoldsUnchanged, PacketsAreFinal, VersionsAreGivenFree};

/// A law: a pipe that gets no more openers and Ending packets than its ring has cells has no line of a full ring.
pub fn few_find_room()
    ensures { FewFindRoom }
{}

/// A law: where no change of a pool is due, no packet is held by an update, neither before the switch nor after it.
pub fn nothing_holds_unchanged()
    ensures { NothingHoldsUnchanged }
{}

/// A law: where at every line at most three rows of each group are held, no connection is answered that there is no place for it.
pub fn free_rows_give_places()
    ensures { FreeRowsGivePlaces }
{}

/// A law: a version is given only when nothing holds it: it isn't the last one of its virtual address, and no open connection has it.
pub fn versions_are_given_free()
    ensures { VersionsAreGivenFree }
{}

/// A law: each packet has one final line, its own, or where it was held the answer to it.
pub fn packets_are_final()
    ensures { PacketsAreFinal }
{}
