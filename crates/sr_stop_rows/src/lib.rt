//! The machine at its narrow ends, as tests: packets that stop after each of their steps, and many interleavings over tables that are full at once. The
//! auditor judges each list of lines.
//!
//! | part | what it is |
//! |---|---|
//! | `changed` | lawful lists with one line changed, which both auditors judge alike |
//! | `numbers` | all version numbers of a virtual address are held |
//! | `play` | the run that a seed picks, over narrow tables |
//! | `scene` | a machine of a script's text, and the judgement of its lines |
//! | `stops` | an opener, a data packet and an ending packet stop after each of their steps, in each phase of an update |
//! | `seeds` | packets of two keys go through both pipes, as seeds pick, and each list is judged |
#![tactic(auto)]

#[cfg(test)]
mod changed;
#[cfg(test)]
mod numbers;
#[cfg(test)]
mod play;
#[cfg(test)]
mod scene;
#[cfg(test)]
mod seeds;
#[cfg(test)]
mod stops;
