/// What taking a key answers.
#[derive(Clone, Copy, Debug, PartialEq, Eq)]
pub enum Took {
    /// It was not registered, and has a new last entry.
    New,
    /// It was registered already, and nothing changed.
    Same,
}
