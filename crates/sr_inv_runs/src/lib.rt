//! A run by picks meets the invariant in each of its states, and its lines break no clause.
#![tactic(auto)]

mod laws;

pub use laws::picks_keep_clauses;
