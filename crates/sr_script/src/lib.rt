//! Scripts: what a run is to do. A script is a TOML text with the shape of the tables, the servers, the virtual addresses with their first
//! pools, and the changes that come due during the run.
//!
//! - `parse` reads a text. It gives the script that the text's tree spells (`specs/Schema.antt`), and else the first fault of a walk through
//!   that tree, with its path (`specs/Walk.antt`). Both speak in the words of `specs/Spelled.antt`. That the two agree is a law
//!   (`proofs/Law.antt`), and part of `parse`'s contract.
//! - `Script` is what a text says, `ScriptRefusal` why and where a text is no script, `Why` the reasons with their words.
//! - `address` reads the text of an address and a port (`specs/Address.antt`).
//!
//! Inside, each part of a script has a file: `shape_table`, `servers`, `pool_array`, `vip_list`, `change_list`. They stand on `address_list`
//! (addresses, and a set of them), `tree` (values of one type), `rule` (whole numbers in a range), `count` (how many elements), `known`
//! (known keys) and `fault` (paths).
#![tactic(auto)]

mod address_list;
mod address_text;
mod change_list;
mod count;
mod fault;
mod known;
mod pool_array;
mod refusal;
mod rule;
mod script;
mod section;
mod servers;
mod shape_table;
#[cfg(test)]
mod tests;
mod tree;
mod vip_list;
mod why;

pub use address_text::address;
pub use refusal::{ParseRefusal, ScriptRefusal};
pub use script::{Script, parse};
pub use why::Why;
