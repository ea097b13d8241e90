//! Each event of the machine as code keeps the invariant, so that whoever steps it can go on from there; and so do any events one after another.
#![tactic(auto)]

mod events;
mod keeping;

pub use events::keeps_all;
pub use keeping::{keeps_inserts, keeps_phases, keeps_reads};
