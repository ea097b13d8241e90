use sr_frame::Skip;
use sr_law::Line;

/// A log: what was printed, in the order of the text.
#[derive(Debug, Drop)]
pub struct Log {
    /// The skipped records: their positions in the capture, from 1, and why they were skipped.
    pub skips: Vec<(u32, Skip)>,
    /// The lines of pipes and controller.
    pub lines: Vec<Line>,
}
