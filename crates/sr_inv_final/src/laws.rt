//! What the lines are once nothing is under way.

ghost use Rattle.sr_inv_final.specs.Laws.{EmptyIsAtRest, FinalHolds};

/// A law: once no packet is in hand, no report of a held opener waits in a ring and the controller has none to answer, the lines tell of
/// the packets that entered, each as often as it did; each held opener has one answer, of its key and after it entered; and each answer
/// is to a held opener.
pub fn lines_are_final()
    ensures { FinalHolds }
{}

/// A law: nothing is under way where no packet is in hand, the controller has no opener to answer, and the cell of each ring that it
/// would load next is empty.
pub fn empty_is_at_rest()
    ensures { EmptyIsAtRest }
{}
