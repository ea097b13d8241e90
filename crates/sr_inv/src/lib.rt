//! What holds of every state that a run reaches.
#![tactic(auto)]

mod laws;

pub use laws::every_state_meets_the_invariant;
