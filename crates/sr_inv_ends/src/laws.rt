//! How a run ends.

ghost use Rattle.sr_inv_ends.specs.Laws.{ActsSettle, ActsTellTime, PicksSettle, PicksTellTime, TurnsEndSo, TurnsSettle};

/// A law: where turns end that began with no look at the rings in progress, and no packet is in hand, nothing is left to do, or an update waits for
/// the key that they name; so the lines are settled, or but for the changes of pools and the last update, with the cause in them.
pub fn turns_settle()
    ensures state { TurnsEndSo }
    ensures lines { TurnsSettle }
{}

/// A law: so they are after a run round by round, whoever acts next, and after a run by picks, whatever the seed picks.
pub fn runs_settle()
    ensures acts { ActsSettle }
    ensures picks { PicksSettle }
{}

/// A law: the clock of the state that either ends in is the time at which the last round began.
pub fn runs_tell_time()
    ensures acts { ActsTellTime }
    ensures picks { PicksTellTime }
{}
