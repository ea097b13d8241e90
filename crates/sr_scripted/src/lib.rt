//! A script's run, by the picks of a seed or in order: which machine a script is for, and what is left of its run, the lines of all actors
//! in order of their ticks and how the turns after the last round ended.
//!
//! | part | what it is |
//! |---|---|
//! | `config` | the machine that a script is for |
//! | `ordering` | the lines of all actors, by their ticks |
//! | `played` | the run of a script and of timed packets, by the picks of a seed or in order |
#![tactic(auto)]

mod config;
mod ordering;
mod played;

pub use config::config_of;
pub use ordering::in_order;
pub use played::{Played, awaited_after, packets_ranges, play_script, replay_script};
