//! The machine of `sr_machine` as code. So far a pipe's part: its next step, and what it knows after it, once for all who have
//! words to make the step on.
//!
//! | part | source files | `specs/` |
//! |---|---|---|
//! | How a loaded word is read | `reads` | `Ranges` |
//! | How far a packet has come | `track` | `Tracks` |
//! | What comes after each of its steps | `course` | |
//! | Its next step, and the stage after it | `stepping` | |
//! | A pipe: packets enter, steps are made, lines are written | `pipe_machine` | `HeldPipe` |
//! | The whole machine: it makes events | `machine`, `controlled` | `HeldCore` |
//! | All pipes of a machine | `pipes` | `HeldPipes` |
//! | The shared words as a plain list, and those at the beginning | `plain_words` | `PlainWords`, `FirstPools` |
#![tactic(auto)]

mod controlled;
pub mod course;
mod machine;
mod pipe_machine;
mod pipes;
mod plain_words;
pub mod reads;
pub mod stepping;
mod track;

pub use controlled::Controlled;
pub use machine::Core;
pub use pipe_machine::{PipeMachine, packet_line};
pub use pipes::Pipes;
pub use plain_words::PlainWords;
pub use track::{Course, Track};
