//! Runs over the machine: rounds of picks, or rounds in order, and then turns of the controller until nothing is left to do.
//!
//! | part | what it is |
//! |---|---|
//! | `making` | an event, and a turn of the controller, on the machine |
//! | `share` | what a pipe hasn't handled yet of a round |
//! | `standing` | where a round stands, and who hasn't ended it |
//! | `playing` | a round: pick by pick, or in order |
//! | `settling` | the turns after the last round |
//! | `running` | a whole run by picks: all rounds, and then these turns |
//! | `replaying` | a whole run in order: in each round one pipe after another, and then the controller |
//!
//! What is said of a machine is said of every state that it stands for (`specs/Standing.antt`).
#![tactic(auto)]

mod making;
mod playing;
mod replaying;
mod running;
mod settling;
mod share;
mod standing;

pub use playing::{play, play_in_order};
pub use replaying::run_in_order;
pub use running::{Run, packets_on, run_by_picks};
pub use settling::settle;
pub use share::Share;
pub use standing::Standing;
