//! A script's run by the picks of a seed, with pipes and a controller over plain words: round after round, one step of a pipe or one turn
//! of the controller after another, and then turns until nothing is left to do.
//!
//! | part | source files | `specs/` |
//! |---|---|---|
//! | The pipes at the beginning | `beginning` | |
//! | A round: its time is told, its packets are shared, and it is played | `telling`, `sharing`, `rounds` | `Rounds` |
//! | The turns after the last round | `settling` | `Settling` |
//! | The lines of all, by their ticks | `ending` | |
//! | The run of a script and of timed packets | `running` | `Running` |
#![tactic(auto)]

mod beginning;
mod ending;
mod rounds;
mod running;
mod settling;
mod sharing;
mod telling;

pub use beginning::new_pipes;
pub use rounds::{play_round, play_rounds};
pub use running::step_script;
pub use settling::settle;
pub use telling::tell;
