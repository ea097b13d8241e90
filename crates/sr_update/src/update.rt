use sr_base::Version;

/// An update of a virtual address: which number it gives, and which one it replaces.
#[derive(Clone, Copy, Debug, PartialEq, Eq)]
pub struct Update {
    /// The virtual address.
    pub vip: u8,
    /// The number of the new pool.
    pub given: Version,
    /// The number of the pool before.
    pub replaced: Version,
}
