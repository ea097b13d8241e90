//! Pipes and the controller over plain words, in one thread: a round of picks, one step of a pipe or one turn of the controller after
//! another.
//!
//! | part | source files | `specs/` |
//! |---|---|---|
//! | The words with all actors on them | | `Together` |
//! | What the picked one does | `acting` | `Acting` |
//! | The generator that picks | `drawing` | |
//! | What is left of a round, and who hasn't ended it | `share`, `standing` | `Standing` |
//! | A round | `interleaving` | `Interleaving` |
#![tactic(auto)]

mod acting;
mod drawing;
mod interleaving;
mod share;
mod standing;

pub use interleaving::interleave;
