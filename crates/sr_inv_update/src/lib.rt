//! Every event keeps what an update is, which phase each of its steps belongs to, which versions
//! are in use for what, and which changes are still to come: the family `InUpdate` of the invariant.
#![tactic(auto)]

mod laws;

pub use laws::{phases_are_kept, updates_are_kept, versions_are_kept};
