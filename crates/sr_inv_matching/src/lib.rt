//! Every event keeps that no packet is taken for another connection's: the family `InMatching` of the invariant.
#![tactic(auto)]

mod laws;

pub use laws::matching_is_kept;
