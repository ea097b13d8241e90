//! What holds of every reachable state of the machine: the invariant, stated whole, family by family. It says how the shared words, what
//! the pipes know, what the controller knows and the printed lines fit together, whatever the interleaving of atomic steps.
//!
//! | family | `specs/` |
//! |---|---|
//! | what a machine may be made for, and what may come in | `Fitted` |
//! | what facts are said of: words, rings, a packet's stage, the controller's job | `Readings`, `Flying`, `Doing` |
//! | everything is in its range | `InShape` |
//! | each word is what the views say | `InWords` |
//! | each tick was drawn once | `InTicks` |
//! | phases and versions of updates | `InUpdate` |
//! | places, and what a job stands on | `InJobs` |
//! | what a packet in flight has loaded and chosen | `InFlight` |
//! | no packet is taken for another connection's | `InMatching` |
//! | which keys are in the transit filter | `InFilter` |
//! | when a connection is open | `InOpenings` |
//! | packets of a known key go by its version | `OnTrack` |
//! | held openers are told and answered once | `InHeld` |
//! | quiet connections are quiet by the lines | `InSweeps` |
//! | every verdict has its cause, and the lines break no clause | `InCauses` |
//! | all of it | `Invariant` |
//!
//! That every event keeps a family is a law of the crates above, a crate for two or three families; each assumes the whole invariant
//! before the event.
#![tactic(auto)]

mod laws;

pub use laws::idle_notes_are_clear;
