//! When a put may begin. A put takes a place of the tables for a key: reserved first, and live once the packets and reports that don't know of
//! it are through. What the invariant says of a put under way rests on one condition at its beginning (`specs/MayPut.antt`), whoever chose the
//! place: the first plan meets it, and so may a longer chain of moves.
#![tactic(auto)]

mod laws;

pub use laws::{plans_may_be_put, puts_hold, puts_keep_the_invariant};
