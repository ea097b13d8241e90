use sr_law::Line;

/// What a single step of a pipe answers.
#[derive(Clone, Copy, Debug, PartialEq, Eq)]
pub enum Progress {
    /// The packet has a further step.
    Running,
    /// That was its last step, and this is its line.
    Done(Line),
}
