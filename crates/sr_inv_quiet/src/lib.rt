//! Every event keeps that a connection that was quiet for some sweeps was quiet by the lines: the family `InSweeps` of the invariant, whole.
#![tactic(auto)]

mod laws;

pub use laws::sweeps_are_kept;
