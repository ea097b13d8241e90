//! Where turns until nothing is left to do end, the lines are settled: what was due was done. What the turns say is what the last one found,
//! with nobody between.
#![tactic(auto)]

mod laws;

pub use laws::{runs_settle, runs_tell_time, turns_settle};
