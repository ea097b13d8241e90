//! Every event keeps what the controller's jobs stand on, and who has which place: the family `InJobs` of the invariant.
#![tactic(auto)]

mod laws;

pub use laws::jobs_are_kept;
