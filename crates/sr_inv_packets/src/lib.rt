//! What the invariant says of packets, keys and version numbers, in terms of the machine alone.
#![tactic(auto)]

mod laws;

pub use laws::{
    drained_learners_miss_the_place, free_numbers_stand_nowhere, kept_keys_are_in_the_filter,
    openers_learn_the_next_number, packets_are_on_track, packets_leave_hits,
    passed_packets_know_the_store, recorded_keys_are_in_the_filter, used_numbers_hold_their_pools,
};
