//! Rows of a pipe over plain words, as tests.
#![tactic(auto)]

#[cfg(test)]
mod longest;
#[cfg(test)]
mod rows;
#[cfg(test)]
mod scene;
#[cfg(test)]
mod shared;
