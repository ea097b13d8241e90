//! The lines of a machine at rest are lawful for the packets that its pipes have lines of. Nothing is asked of how the state was reached
//! but that events lead there, and what was handled is read off the pipes' own lines: so whoever drives a machine, by picks, in order or
//! by threads, has only to bring it to rest.
#![tactic(auto)]

mod laws;

pub use laws::lines_are_lawful;
