/// A look at which connections were used since the last one.
#[derive(Clone, Copy, Debug, PartialEq, Eq)]
pub struct Sweep {
    /// Which sweep, from 1.
    pub number: u64,
    /// The tick before it.
    pub from: u64,
    /// The tick after it.
    pub to: u64,
    /// The capture time, in milliseconds.
    pub at_ms: u64,
}
