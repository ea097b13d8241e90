use crate::Stage;
use sr_law::Line;
use std::collections::LinkedList;

/// What a pipe knows.
pub struct PipeView {
    /// Its number, from 0.
    pub number: u8,
    /// Its next step.
    pub stage: Stage,
    /// How many reports it has stored in its ring. The next one goes into the cell of this number modulo the ring's cells.
    pub pushed: u64,
    /// Its lines, by rising `out`.
    pub lines: LinkedList<Line>,
}
