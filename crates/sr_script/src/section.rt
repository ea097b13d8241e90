/// A table of a script.
#[derive(Clone, Copy, Debug, PartialEq, Eq)]
pub enum Section {
    /// The whole script.
    Top,
    /// The table `shape`.
    Shape,
    /// The table of the virtual address at this position, from 0.
    Vip(usize),
    /// The table of the change at this position, from 0.
    Change(usize),
}
