//! Worked rows that go through `sr_run::run`, as tables of tests. There is nothing here for a program to call.
//!
//! `bytes` makes captures and `play` runs a row through devices in memory. The rows: `captures` (whole ones, hostile ones, their forms and
//! skipped records), `pcapng` (captures of blocks), `cuts` (an input cut to every length), `devices` (failing ones), `flushes` (the sink's last call), `made` (captures from a
//! number), `audit` (logs judged by a script), `replays` (captures played by one), `held` (a packet that waits for a tick of the controller), `scripts` (refused ones) and `usage` (words that are no command). What is told of a row is what
//! was printed, and then a line with the exit code and what the program says on standard error.
#![tactic(auto)]

#[cfg(test)]
mod audit;
#[cfg(test)]
mod bytes;
#[cfg(test)]
mod captures;
#[cfg(test)]
mod cuts;
#[cfg(test)]
mod devices;
#[cfg(test)]
mod flushes;
#[cfg(test)]
mod held;
#[cfg(test)]
mod made;
#[cfg(test)]
mod pcapng;
#[cfg(test)]
mod play;
#[cfg(test)]
mod replays;
#[cfg(test)]
mod scripts;
#[cfg(test)]
mod usage;
