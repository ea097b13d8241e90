//! Every event keeps that verdicts have their causes: parts of the family `InCauses` of the invariant.
#![tactic(auto)]

mod laws;

pub use laws::causes_are_told;
