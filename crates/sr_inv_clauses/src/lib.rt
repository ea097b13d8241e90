//! Every event keeps that the printed lines break no clause: parts of the family `InCauses` of the invariant.
#![tactic(auto)]

mod laws;

pub use laws::{numbers_are_free, pools_are_newer, pools_are_same, servers_are_right};
