use sr_law::Verdict;

/// What became of a packet, and whether it has stored a report.
#[derive(Clone, Copy)]
pub struct Decided {
    /// Its verdict.
    pub verdict: Verdict,
    /// Whether its pipe's ring has its report.
    pub stored: bool,
}
