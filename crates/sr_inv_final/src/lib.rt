//! Once nothing is under way, the lines are those of a whole run: each packet that entered has its line, and each held opener its one
//! answer. When nothing is under way is `specs/Rest`; which packets entered in a run is `specs/Reached`.
#![tactic(auto)]

mod laws;

pub use laws::{empty_is_at_rest, lines_are_final};
