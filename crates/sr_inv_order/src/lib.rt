//! Every event keeps the printed lines in order: a part of the family `InCauses` of the invariant.
#![tactic(auto)]

mod laws;

pub use laws::order_is_kept;
