//! Marks in a growing list, of which the n-th set one, the next set one and how many are set are found in logarithmic time.
//!
//! | part | what it is |
//! |---|---|
//! | `marks` | the list of marks, beside the counts of its words |
//! | `tiers` | marks under tiers that tell of each word below whether it has a set one: the next set one |
//! | `flags`, `word` | marks in words of 64, and what is asked of one word |
//! | `counts` | a list of counts under levels of sums: the sum before a position, and the position that a sum reaches |
//! | `level` | the counts of one level |
//! | `plain` | the same answers by a walk over the list |
//!
//! The definitions of what is asked of a list of marks stand in `specs/Marks.antt`, what is known of a word in
//! `specs/Words.antt`, what callers may want to know of such lists in `proofs/SetMarks.antt`.
#![tactic(auto)]

mod counts;
mod flags;
mod level;
mod marks;
mod plain;
mod tiers;
mod word;

pub use marks::Marks;
pub use plain::{before_plain, next_plain, nth_plain};

#[cfg(test)]
mod tests;
