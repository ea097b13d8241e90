//! A pipe over any board: packets enter, and each makes its steps on the words, one at a time or at one go. The steps are those of
//! the machine, whoever has the words.
//!
//! | part | source files | `specs/` |
//! |---|---|---|
//! | A pipe, packet by packet and step by step | `pipe`, `progress` | `Steps`, `Known`, `Progress` |
//! | A packet at one go: its first and last steps | `passing` | `Handling` |
//! | It looks at the places of its key | `looking`, `found` | `Places`, `Choices` |
//! | It is held, or goes by a version | `choosing`, `choice` | `Choices` |
//! | Its server, its report | `serving`, `reporting`, `decided` | |
//! | All of this in turn | `deciding` | |
//! | Why its verdict is what it is | | `Told`, `Causes` |
#![tactic(auto)]

mod choice;
mod choosing;
mod decided;
mod deciding;
mod found;
mod looking;
mod passing;
mod pipe;
mod progress;
mod reporting;
mod serving;

pub use choice::Choice;
pub use decided::Decided;
pub use found::Found;
pub use pipe::Pipe;
pub use progress::Progress;
