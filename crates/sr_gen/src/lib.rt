//! Captures from a number: `make` writes a classic capture whose packets all follow from one number and their count, so that a run can be
//! repeated anywhere with nothing but these two.
//!
//! | part | what it is |
//! |---|---|
//! | `generator` | the numbers that are drawn |
//! | `turns` | whose turn it is: ten rounds over a hundred connections, and then over the next hundred |
//! | `connection` | a connection, by its number and what is drawn for it |
//! | `connections` | the connections of all packets, drawn anew in each round, so that none is kept |
//! | `record` | a packet's record: its header and its segment |
//! | `capture` | the whole capture, written record by record |
#![tactic(auto)]

mod capture;
mod connection;
mod connections;
mod generator;
mod record;
mod turns;

pub use capture::make;
pub use generator::Generator;
