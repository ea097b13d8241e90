//! Once nothing is left to do, the lines are settled: what was due was done. When nothing is left to do is `specs/Quiet`; what the lines tell
//! of the script's changes at every moment is `specs/Told`.
#![tactic(auto)]

mod laws;

pub use laws::{quiet_is_settled, waiting_is_settled};
