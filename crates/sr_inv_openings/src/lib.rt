//! Every event keeps when a connection is open: the family `InOpenings` of the invariant.
#![tactic(auto)]

mod laws;

pub use laws::openings_are_kept;
