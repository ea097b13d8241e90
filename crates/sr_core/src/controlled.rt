use sr_machine::Turn;

/// What a step of the controller came to.
#[derive(Clone, Copy, Debug, PartialEq, Eq)]
pub enum Controlled {
    /// It was made, and its turn goes on.
    Made,
    /// It was made, and its turn ended with this answer.
    Ended(Turn),
    /// There is none: 2^56 ticks or reports were reached.
    NotNow,
    /// There was no memory for it, and nothing changed.
    Memory,
}
