//! A run round by round ends at rest, and so does one by picks: no packet is in hand, the rings are empty, and the controller has no held opener to answer.
#![tactic(auto)]

mod laws;

pub use laws::{picks_end_at_rest, turns_end_at_rest};
