//! What holds of a run by picks.

ghost use Rattle.sr_inv_runs.specs.Runs.{ActsKeepClauses, PicksKeepClauses};

/// A law: whatever the seed picks, and whoever acts next in a run round by round, the state that it ends in meets the invariant, and its lines
/// break no clause: so the packets of an open connection go to the server of its opening, and a connection that is opened after a switch uses
/// that pool or a later one.
pub fn picks_keep_clauses()
    ensures picks { PicksKeepClauses }
    ensures acts { ActsKeepClauses }
{}
