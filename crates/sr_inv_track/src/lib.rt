//! Every event keeps that a packet goes by the version that its key has, or is held: the family `OnTrack` of the invariant.
#![tactic(auto)]

mod laws;

pub use laws::track_is_kept;
