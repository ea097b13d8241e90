/// A run of consecutive packets of one window of time.
#[derive(Clone, Copy, Debug, PartialEq, Eq)]
pub struct Round {
    /// When the window begins, in milliseconds since the capture's first record.
    pub start_ms: u64,
    /// The position of its first packet.
    pub from: usize,
    /// The position of the first packet after it.
    pub to: usize,
}
