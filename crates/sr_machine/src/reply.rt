use crate::HeldOpener;
use sr_base::Version;

/// The answer to a held opener.
#[derive(Clone, Copy)]
pub struct Reply {
    /// The opener.
    pub held: HeldOpener,
    /// The version by which it is sent; none where there is no place for its key.
    pub version: Option<Version>,
}
