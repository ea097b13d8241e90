use crate::CaptureRefusal;
use sr_frame::Skip;

/// What was read of a capture.
#[derive(Debug, Drop)]
pub struct Captured<T> {
    /// The skipped records: position from 1, and why.
    pub skips: Vec<(u32, Skip)>,
    /// What is kept of the packets to a virtual address.
    pub packets: Vec<T>,
    /// Why the capture ended early, if it did.
    pub ending: Option<CaptureRefusal>,
}
