use sr_base::Key;

/// Who has a place of the tables.
#[derive(Clone, Copy, Debug, PartialEq, Eq)]
pub struct Taking {
    /// Whose entry stands there.
    pub key: Key,
    /// It was live since the place was taken.
    pub placed: bool,
}
