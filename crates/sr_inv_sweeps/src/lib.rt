//! Every event keeps how sweeps are counted, and which connections are closed: two parts of the family `InSweeps` of the invariant.
#![tactic(auto)]

mod laws;

pub use laws::{closed_have_ended, sweeps_are_counted};
