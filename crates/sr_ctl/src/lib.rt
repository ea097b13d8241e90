//! The controller over any board: it takes what pipes report, places keys, makes updates and sweeps, one turn after another. The
//! steps are those of the machine, whoever has the words.
//!
//! | part | source files | `specs/` |
//! |---|---|---|
//! | The controller, turn by turn | `controller` | `SeenController`, `Turned` |
//! | The steps of a turn | `acting` | `Steps` |
//! | Turns until nothing is left to do | `settling`, `went` | `Settles` |
//! | Why a turn answers what it does | | `Causes` |
//! | What the turns are to the machine | `meaning` | `Laws` |
//! | Which turns make room, and how much | | `Needs` |
#![tactic(auto)]

mod acting;
mod controller;
mod meaning;
mod settling;
mod went;

pub use controller::Controller;
pub use meaning::{settling_is_the_machines, turning_is_the_machines};
