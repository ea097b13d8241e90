use sr_base::Version;

/// A change of a virtual address's pool that is under way.
#[derive(Clone, Copy)]
pub struct PoolUpdate {
    /// The virtual address.
    pub vip: u8,
    /// The version that is replaced.
    pub replaced: Version,
    /// The version that comes in its place.
    pub given: Version,
    /// The number of the pool of the new version.
    pub pool: u64,
}
