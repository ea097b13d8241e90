//! A run on running threads: in each round all pipes handle their packets while the controller makes its turns, over words that they
//! share; after the last round the boards rest, and turns are made until nothing is left to do.
//!
//! | part | source files | `specs/` |
//! |---|---|---|
//! | A pipe with its board, and the packets that it handles | `worker` | `Working` |
//! | The controller's turns of a round | `governing` | `Governing` |
//! | A round, and all rounds | `round`, `playing` | `Playing` |
//! | A worker for each board at the beginning, and the boards again at the end | `hiring` | `Hiring` |
//! | The boards at rest, and the turns until nothing is left to do | `ending` | `Replayed` |
//! | The run of a script and of timed packets | `replaying` | `Replayed` |
#![tactic(auto)]

mod ending;
mod governing;
mod hiring;
mod playing;
mod replaying;
mod round;
mod worker;

pub use replaying::replay_on_threads;
