use crate::Entry;
use std::collections::LinkedList;

/// The book as a plain value: what `Shadow` keeps, without its layout and without the room that was made for a key. A view may hold it.
#[derive(Drop)]
pub struct Book {
    /// The entries of the registered keys, in the order of taking.
    pub entries: LinkedList<Entry>,
    /// How many entries were ever taken.
    pub taken: u64,
}
