//! The rounds of a replay: a capture is cut into runs of packets of one window of time, so that what is due at a window is told
//! before its packets enter.
//!
//! | part | what it is |
//! |---|---|
//! | `timed` | a packet and the capture time at which it comes |
//! | `round` | a run of packets, by the positions of the first and the one past the last |
//! | `cutting` | the rounds of a capture |
//! | `laws` | what the definition in `specs/Rounds.antt` means |
#![tactic(auto)]

mod cutting;
mod laws;
mod round;
#[cfg(test)]
mod tests;
mod timed;

pub use cutting::rounds;
pub use laws::rounds_are_windows;
pub use round::Round;
pub use timed::Timed;
