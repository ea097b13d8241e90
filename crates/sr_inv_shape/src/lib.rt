//! Every event keeps everything in its range: the family `InShape` of the invariant.
#![tactic(auto)]

mod laws;

pub use laws::shapes_are_kept;
