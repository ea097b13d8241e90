//! A run by picks lets in the packets that it is given, each as often as it is given; so, since it ends at rest, its lines are lawful
//! for these packets.
#![tactic(auto)]

mod laws;

pub use laws::{picks_are_final, picks_are_lawful, picks_enter_all};
