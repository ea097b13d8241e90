use sr_base::Version;

/// How a connection was opened: what the line says that first sent it to a server.
#[derive(Clone, Copy, Debug, PartialEq, Eq)]
pub struct Opening {
    /// The tick of that line.
    pub out: u64,
    /// The server's number.
    pub server: u32,
    /// The version of the virtual address's pool.
    pub version: Version,
    /// The pool's number, from 1.
    pub pool: u64,
}
