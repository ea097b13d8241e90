/// What an event does.
#[derive(Clone, Copy, Debug, PartialEq, Eq)]
pub enum Stepped {
    /// It was made.
    Made,
    /// It can't be made now, and nothing changed.
    NotNow,
    /// There was no memory for it, and nothing changed.
    Memory,
}
