//! Every event keeps what packets in flight have loaded and chosen: the family `InFlight` of the invariant, in parts and whole.
#![tactic(auto)]

mod laws;

pub use laws::{
    cells_are_kept, choices_are_kept, filter_places_are_kept, flights_are_kept,
    known_phases_are_kept, loaded_words_are_kept, over_keys_are_kept, releases_are_kept,
    servers_are_kept, used_numbers_are_kept,
};
