use sr_base::Version;

/// What a line gives a virtual address: this version of it names this pool from then on.
#[derive(Clone, Copy, Debug, PartialEq, Eq)]
pub struct Giving {
    /// The version.
    pub version: Version,
    /// The pool's number, from 1.
    pub pool: u64,
}
