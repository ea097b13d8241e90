//! The shared words for threads: a table of words that change in single atomic steps, with one seat an actor, and the rule that ties them
//! to the machine of `sr_machine`.
//!
//! | part | source files | `specs/` |
//! |---|---|---|
//! | What a seat knows | `seated` | `Seats` |
//! | What a board was told since its last step | `heard` | `Hearing` |
//! | The rule of the table | `rule` | `Rule` |
//! | Single steps, and the board that makes them | `steps`, `word_board` | `Steps`, `Besides` |
//! | The words of a machine, all its boards, and their rest | `switch`, `boards`, `resting` | `Boarding` |
//! | What follows | `laws` | `Laws` |
#![tactic(auto)]

mod boards;
mod heard;
mod laws;
mod resting;
mod rule;
mod seated;
mod steps;
mod switch;
mod word_board;

pub use boards::Boards;
pub use heard::Heard;
pub use laws::{
    boards_know_their_pipes, heads_are_stored_unchosen, shown_states_meet_the_invariant,
};
pub use resting::{Closed, Rested, Resting};
pub use rule::{Knowing, Learning, Looking, Making, Second, Telling, Together, Words};
pub use seated::Seated;
pub use switch::{First, Switch};
pub use word_board::WordBoard;
