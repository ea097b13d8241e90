use sr_base::Key;

/// An opener that a pipe held, and that the controller hasn't answered.
#[derive(Clone, Copy)]
pub struct HeldOpener {
    /// The pipe.
    pub pipe: u8,
    /// Which of the pipe's held openers it is, from 1.
    pub nth: u32,
    /// Whose opener it is.
    pub key: Key,
}
