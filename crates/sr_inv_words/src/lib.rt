//! Every event keeps what each shared word is, and that each tick was drawn once: the families `InWords` and `InTicks` of the invariant.
#![tactic(auto)]

mod laws;

pub use laws::{ticks_are_kept, words_are_kept};
