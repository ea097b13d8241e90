//! The shared words as a plain vector, for one thread that makes the steps of all actors.
//!
//! | part | source files | `specs/` |
//! |---|---|---|
//! | The words | `plain_board` | |
//! | One actor's access to them | `plain_actor` | `Actors`, `Resting` |
#![tactic(auto)]

mod plain_actor;
mod plain_board;

pub use plain_actor::PlainActor;
pub use plain_board::PlainBoard;
