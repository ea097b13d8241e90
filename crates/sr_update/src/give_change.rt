/// A change that gives a virtual address another pool.
#[derive(Clone, Copy, Debug, PartialEq, Eq)]
pub struct GiveChange {
    /// When it is due, in milliseconds of capture time.
    pub at_ms: u64,
    /// Its position among all changes, from 0.
    pub position: u32,
    /// The virtual address.
    pub vip: u8,
    /// The number of the pool: 1 is the one that the virtual address begins with, and each change that gives it one
    /// has the next number.
    pub pool: u64,
}
