//! What is true of the lines of a capture that was played by a script, whichever command played it: one record, over one list
//! of lines. They are lawful, so connections keep their servers and openings follow switches; they are settled; and rare
//! verdicts have their reasons.
//!
//! | part | what it is |
//! |---|---|
//! | `specs/Captured` | what is kept of a capture for a script, and what the lines are judged by |
//! | `specs/Lines` | the record, `AreRunLines` |
//! | `specs/Resting` | runs whose tables rest while the pipes run |
//! | `laws` | whatever a run of the script's machine over the packets of a capture comes to is such a list |
#![tactic(auto)]

mod laws;

pub use laws::{played_lines_hold, resting_runs_hold};
