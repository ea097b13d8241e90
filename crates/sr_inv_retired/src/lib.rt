//! Every event keeps that connections are retired only after they were quiet: a part of the family `InCauses` of the invariant.
#![tactic(auto)]

mod laws;

pub use laws::retirements_are_kept;
