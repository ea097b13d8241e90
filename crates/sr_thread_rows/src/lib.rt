//! Runs on running threads, as tests.
#![tactic(auto)]

#[cfg(test)]
mod runs;
