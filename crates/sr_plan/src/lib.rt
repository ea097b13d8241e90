//! The plan of a key without a Live place: the first way there is to place it. The definition is read off the plain list of the book's entries
//! (`sr_shadow`, `specs/Plan.antt`); `plan`, and `plan_in` over a ledger, find the same by a few look-ups.
//!
//! `slots` finds usable slots, `clear` tells whether a key's packets are taken for another entry's, `moves` finds a move, `rows` a row of the
//! table of full keys, and `planning` puts them in order. What the plan means, and a body that finds it by the definition, stand in `sr_shadow`.
#![tactic(auto)]

mod clear;
mod moves;
mod planning;
mod rows;
mod slots;

pub use planning::{plan, plan_in};
pub use sr_shadow::Plan;
