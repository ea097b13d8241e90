//! Which verdicts a list of lines has for a rare reason alone, and what rules the reason out: a ring that is full, an update that holds openers,
//! a group of rows without a free one. What such a verdict is and what rules it out is `specs/Rare`. And what a lawful list means in plain words for
//! versions and packets: `specs/Plain`.
#![tactic(auto)]

mod laws;

pub use laws::{
    few_find_room, free_rows_give_places, nothing_holds_unchanged, packets_are_final,
    versions_are_given_free,
};
