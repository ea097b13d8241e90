//! The worked rows of the plan, and both bodies on many books.
#![tactic(auto)]

mod books;
mod ledgers;
#[cfg(test)]
mod rows;
mod scene;
