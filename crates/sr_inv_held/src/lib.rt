//! Every event keeps that each held opener is told once and answered once: the family `InHeld` of the invariant.
#![tactic(auto)]

mod laws;

pub use laws::helds_are_kept;
