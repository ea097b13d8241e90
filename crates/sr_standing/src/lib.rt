//! What the controller's book is to its job, whatever its steps are answered: a put's place is free until the put is made live or given up, its key
//! has no place but the one that it moves from, and a sweep comes to placed keys alone. It says so of the controller's view, without words and lines, so
//! that the controller as code may rely on it.
//!
//! | part | source file | `specs/` |
//! |---|---|---|
//! | what stands while a job is set | | `Standing` |
//! | every step keeps it; what a book may be asked to do by it | `laws` | |
#![tactic(auto)]

mod laws;

pub use laws::{jobs_may_change, standings_are_kept};
