//! Where a run ends.

ghost use Rattle.sr_inv_rest.specs.Laws.{ActsEndAtRest, PicksEndAtRest, SettledIsAtRest};

/// A law: whatever the seed picks, and whoever acts next in a run round by round, it ends in a state in which nothing is under way that a
/// line is still to tell. For its last turn looked at every ring, in order and with nobody between, and found each empty; and a controller
/// that looks at the rings has no held opener to answer.
pub fn picks_end_at_rest()
    ensures picks { PicksEndAtRest }
    ensures acts { ActsEndAtRest }
{}

/// A law: so do turns until nothing is left to do, wherever they begin with no look at the rings in progress, if they end with no packet
/// in hand.
pub fn turns_end_at_rest()
    ensures { SettledIsAtRest }
{}
