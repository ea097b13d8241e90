//! The auditor of real logs: it judges a list of printed lines in one walk, and answers what `sr_law::check_plain` does. Each question that a
//! line can ask of the lines before it has an index, with a contract over these lines as a list; what the walk knows is its indexes together.
//!
//! | question | part |
//! |---|---|
//! | Which lines may cross it: the newest, out at its start or later | `lately` |
//! | Where an update stands | `last_update` |
//! | What a virtual address was last given | `last_givings` |
//! | What a version was last given | `versions` |
//! | What a virtual address was last switched to | `switches` |
//! | Whether a connection is open, and how it was opened | `connections` |
//! | Whether an open connection has a version | `holders` |
//! | Whether a server was taken down | `downs` |
//! | What an update that holds its virtual address did since | `holds` |
//! | Which places of a filter may be set since an update records | `filters` |
//! | Whether an entry that an opener matches stands, or was cleared lately | `clashes` |
//! | Who has a place of the tables | `places` |
//! | How many words a pipe's ring may have got since its last answer | `rings`: `ring` |
//! | Whether a pool comes after those that its virtual address was given | `greatest_given` |
//! | Whether a change comes after those that were refused | `greatest_refused` |
//! | Whether an entry is live in each row of a key's group | `live_rows` |
//! | Which sweep was the last, and which has a number | `last_sweep`, `sweeps` |
//! | When a connection was last placed, and last retired | `last_placed`, `last_retired` |
//! | Whether it was quiet since a sweep | `used` |
//! | Whether an Ending packet of any line ends it | `endings` |
//! | Whether it may be retired | `retiring` |
//! | After the walk: whether each packet has its final line | `final_lines`; `pairing`: `answers`, `held_counts` |
//!
//! `judge` asks them, with `causes` and `in_use`. `walk` goes over the lines. `counts` counts openings and switches.
#![tactic(auto)]

mod answers;
mod audit;
mod causes;
mod clashes;
mod connections;
mod counts;
mod downs;
mod endings;
mod filters;
mod final_lines;
mod greatest_given;
mod greatest_refused;
mod held_counts;
mod holders;
mod holds;
mod in_use;
mod judge;
mod last_givings;
mod last_placed;
mod last_retired;
mod last_sweep;
mod last_update;
mod lately;
mod live_rows;
mod pairing;
mod places;
mod retiring;
mod ring;
mod rings;
mod sweeps;
mod switches;
mod used;
mod versions;
mod walk;

pub use counts::{count_openings, count_switches};
pub use walk::check;
