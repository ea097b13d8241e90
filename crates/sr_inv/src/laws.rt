//! What holds of every state that a run reaches.

ghost use Rattle.sr_inv.specs.Reached.{EveryStateMeets};

/// A law: every state that any list of events leads to, from the beginning of any machine, meets the invariant.
pub fn every_state_meets_the_invariant()
    ensures { EveryStateMeets }
{}
