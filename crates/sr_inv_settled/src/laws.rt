//! What the lines are once nothing is left to do.

ghost use Rattle.sr_inv_settled.specs.Laws.{QuietIsSettled, WaitingIsSettled};

/// A law: once no packet is in hand, the rings are empty, the controller has nothing to begin, no update is under way and no change of a pool is
/// due, the lines are settled. Each change whose time has come was made or refused, once, in the script's order; the last update is over; each
/// server whose time has come was taken down, and no other; each open connection has a place, or there is none for it; no sweep is due; and no
/// connection is left that was quiet for so many sweeps.
pub fn quiet_is_settled()
    ensures { QuietIsSettled }
{}

/// A law: where else an update waits for a key, the lines are settled but for the changes of pools and the last update, which is under way;
/// the key is open, and each row of its group has an entry.
pub fn waiting_is_settled()
    ensures { WaitingIsSettled }
{}
