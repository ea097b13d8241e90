/// The sizes of the tables and the times of the controller, as a script gives them.
#[derive(Clone, Copy, Debug, PartialEq, Eq)]
pub struct Shape {
    /// Pipes, 1 to 16.
    pub pipes: u8,
    /// Buckets of each way of the connection table, a power of two, 1 to 65,536. A bucket has four cells.
    pub buckets: u32,
    /// Bits of a digest, 0 to 16.
    pub digest_bits: u8,
    /// Versions of a virtual address's pool, 2 to 64.
    pub versions: u8,
    /// Servers of a pool at most, 1 to 255.
    pub pool_max: u8,
    /// Rows of the table of full keys, a multiple of 4, 4 to 65,536.
    pub full_rows: u32,
    /// Bits of the transit filter, a power of two, 1 to 1,048,576.
    pub filter_bits: u32,
    /// Cells of each pipe's ring, 1 to 65,536.
    pub ring: u32,
    /// Milliseconds of a window of the capture, 1 to 60,000.
    pub window_ms: u64,
    /// Milliseconds between two sweeps at least, 1 to 86,400,000.
    pub idle_ms: u64,
    /// Quiet sweeps after which a connection is retired, 1 to 255.
    pub lives: u8,
}
