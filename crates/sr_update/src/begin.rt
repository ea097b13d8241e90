use sr_base::Version;

/// What the beginning of an update answers.
#[derive(Clone, Copy, Debug, PartialEq, Eq)]
pub enum Begin {
    /// The first change that was due is taken.
    Started {
        /// Its virtual address.
        vip: u8,
        /// The least Free number of the virtual address.
        version: Version,
        /// The number of the pool that it gives.
        pool: u64,
    },
    /// The virtual address of the first change that is due has no Free number.
    VersionsFull {
        /// The virtual address.
        vip: u8,
    },
    /// No change is due that gives a pool.
    EmptyQueue,
}
