//! The demonstration: a capture is made from a number in memory, replayed by a script of the crate's own, and its lines are
//! counted, once the auditor has judged them.
//!
//! | part | what it is |
//! |---|---|
//! | `script` | the script, as a text that is parsed: four virtual addresses, and twelve changes of their pools |
//! | `capture` | the capture, made and read in memory |
//! | `demo` | the demonstration: `demonstrate` |
#![tactic(auto)]

mod capture;
mod demo;
mod script;
#[cfg(test)]
mod tests;

pub use demo::{Demonstration, demonstrate};
pub use script::{SCRIPT, demo_script};
