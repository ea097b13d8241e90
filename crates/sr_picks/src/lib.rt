//! A run by picks: in each round a generator picks who acts next, a pipe with one step or the controller with one turn, so that a run
//! of the machine follows from a number and can be had again anywhere. What needs no generator is said of a run round by round in which
//! nobody says who is next.
//!
//! | part | `specs/` |
//! |---|---|
//! | A turn of the controller, step by step | `Turn` |
//! | A round: who has ended it, who is picked, what the picked one does | `Play` |
//! | What is left of a round | `Left` |
//! | All rounds of a capture, and the turns after the last | `Run` |
#![tactic(auto)]

mod laws;

pub use laws::{acts_are_runs, picks_are_runs, rounds_end, runs_end_once, turns_are_turns};
