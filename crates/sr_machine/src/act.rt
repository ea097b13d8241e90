/// What a turn of the controller did.
#[derive(Clone, Copy, Debug, PartialEq, Eq)]
pub enum Act {
    /// It took a report from a ring.
    Took,
    /// It found a ring empty, in a wait.
    Drained,
    /// It found that a pipe's packet has passed.
    Passed,
    /// It reserved a place for a key.
    Reserved,
    /// It made a key's entry live.
    Committed,
    /// It gave a reserved place up.
    Withdrawn,
    /// It made an entry live at another slot.
    Moved,
    /// It emptied the slot that an entry has moved from.
    Cleared,
    /// It brought an update to its next phase, or began to wait for a number's release.
    Phase,
    /// It wrote a word of a new version, or cleared one of the filter.
    Wrote,
    /// It began a sweep, took a hit or ended the sweep.
    Swept,
    /// It retired a connection.
    Retired,
    /// It made a version number free again.
    Released,
    /// It answered a held opener.
    Answered,
    /// It took a server down.
    Downed,
    /// It refused a change.
    Refused,
}
