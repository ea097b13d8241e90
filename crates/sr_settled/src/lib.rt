//! Whether a printed list is settled for a script's changes and a clock: whether nothing was left to do at its end. Each part of the definition
//! has a plain body whose contract it is; `settled` puts them together.
//!
//! | nothing is left to do | part |
//! |---|---|
//! | The due changes that give a pool were made or refused, in order | `gives`: `due`, `in_use` |
//! | The servers that due changes take down were, and no others | `downs` |
//! | No update is under way | `update` |
//! | Each open connection has a place, or there is none for it | `places`: `connections`, `standing` |
//! | No sweep is due | `sweeps` |
//! | No connection is left that was quiet for so many sweeps | `quiet` |
#![tactic(auto)]

mod connections;
mod downs;
mod due;
mod gives;
mod in_use;
mod places;
mod quiet;
mod settled;
mod standing;
mod sweeps;
mod update;

pub use settled::is_settled;
