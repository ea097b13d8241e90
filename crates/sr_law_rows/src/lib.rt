//! The worked rows of lawful lists, and edits of them, judged by both bodies of the auditor.
//!
//! `row_texts` has the rows; `words` and `row` read one, its lines as the auditor's command reads a log; `judging` judges it and each of its edits;
//! `changing` has both bodies judge lists that differ from a row's in one place. `settled_texts` has rows of settled lists,
//! and `settling` judges whether they and their edits are settled.
#![tactic(auto)]

#[cfg(test)]
mod changing;
#[cfg(test)]
mod judging;
#[cfg(test)]
mod row;
#[cfg(test)]
mod row_texts;
#[cfg(test)]
mod settled_texts;
#[cfg(test)]
mod settling;
#[cfg(test)]
mod words;
