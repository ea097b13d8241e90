//! Every event keeps which keys are in the transit filter: the family `InFilter` of the invariant, in parts and whole.
#![tactic(auto)]

mod laws;

pub use laws::{
    drained_reports_are_kept, filter_is_kept, learners_are_kept, pending_keys_are_kept,
    ring_reports_are_kept, set_places_are_kept,
};
