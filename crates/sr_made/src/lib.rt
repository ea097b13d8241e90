//! A capture that is made from a number is read whole: it has as many records as it was made of, and none of them is refused.
#![tactic(auto)]

mod laws;

pub use laws::made_are_whole;
