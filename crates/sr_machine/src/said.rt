use sr_base::Version;

/// What the word at a place of a key says to a packet of the key.
#[derive(Clone, Copy)]
pub enum Said {
    /// No entry there is taken for the key's.
    Nothing,
    /// The controller is about to place an entry there that is taken for the key's.
    Reserved,
    /// An entry there is taken for the key's, and has this version.
    Live(Version),
}
