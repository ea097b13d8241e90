//! Every event keeps that packets in flight have their causes: parts of the family `InCauses` of the invariant.
#![tactic(auto)]

mod laws;

pub use laws::{downs_are_unknown, reports_are_told, verdicts_have_causes};
