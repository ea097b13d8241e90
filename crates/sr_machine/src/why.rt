use crate::Reply;
use sr_base::Version;

/// Why a place is emptied.
#[derive(Clone, Copy)]
pub enum Why {
    /// What was reserved there isn't made live; where an opener is to be answered then, this is the answer.
    Withdrawn(Option<Reply>),
    /// Its entry has moved.
    Source,
    /// Its connection, which had this version, is over.
    Retired(Version),
}
