use sr_base::{Key, Version};

/// Where a line sends its packet, or would have sent it were the server not down.
#[derive(Clone, Copy, Debug, PartialEq, Eq)]
pub struct Choice {
    /// Whose packet it is.
    pub key: Key,
    /// The server's number.
    pub server: u32,
    /// The version of the virtual address's pool.
    pub version: Version,
    /// The pool's number, from 1.
    pub pool: u64,
}
