//! What the invariant says in plain words of the shared words, the packets in flight and the book: ticks, rings, the tables, the words of
//! virtual addresses, the transit filter, the versions of a key and what its packets match. Each is a law of its own, that holds wherever
//! the invariant does.
#![tactic(auto)]

mod laws;

pub use laws::{
    filter_is_clear, placed_keys_are_settled, recorded_openers_leave, rings_are_told,
    slots_match_no_other, table_is_told, ticks_are_told, versions_are_one, vip_words_are_loaded,
};
