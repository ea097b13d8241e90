//! Worked rows of the shared words, as tables: packed words both ways, numbers that nothing packs to, which words a layout has and where
//! they stand, which cells a key matches and which keys clash; and values of the hashes from outside.
#![tactic(auto)]

#[cfg(test)]
mod clashing;
#[cfg(test)]
mod hashes;
#[cfg(test)]
mod packings;
#[cfg(test)]
mod standing;
