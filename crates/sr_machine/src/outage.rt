/// A change that takes a server down, and that was not made.
#[derive(Clone, Copy)]
pub struct Outage {
    /// When it is due, in milliseconds of capture time.
    pub at_ms: u64,
    /// The server.
    pub server: u32,
}
