//! Decimal numbers at the front of bytes, as texts of addresses and lines of a log have them: without leading zeros.
//!
//! `number_front` reads one; what it answers is a function of the bytes (`specs/Front.antt`). Whoever prints numbers by `decimal` finds in
//! `proofs/Decimals.antt` that what is printed is read (`number_there`), and that what is read is what is printed (`number_takes`).
#![tactic(auto)]

mod front;
#[cfg(test)]
mod tests;

pub use front::number_front;
