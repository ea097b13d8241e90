use sr_machine::View;
use std::collections::LinkedList;

/// What a seat of the table knows: the views of the actors that it steps for. It makes the steps of the first one. No value of it is
/// made.
pub struct Seated {
    /// The views.
    pub actors: LinkedList<View>,
    /// The words, where they are known: then no other seat has an actor, so that no other thread changes them.
    pub words: Option<LinkedList<u64>>,
}
