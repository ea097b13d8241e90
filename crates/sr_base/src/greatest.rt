//! The greatest numbers of a layout.

/// Pipes.
pub const MOST_PIPES: u64 = 16;

/// Buckets of a way, a power of two.
pub const MOST_BUCKETS: u32 = 65_536;

/// Bits of a digest.
pub const MOST_DIGEST_BITS: u64 = 16;

/// Versions of a virtual address.
pub const MOST_VERSIONS: u64 = 64;

/// Servers in a pool.
pub const MOST_IN_POOL: u64 = 255;

/// Rows of the full-key table, a multiple of 4.
pub const MOST_FULL_ROWS: u64 = 65_536;

/// Bits of the filter, a power of two.
pub const MOST_FILTER_BITS: u32 = 1_048_576;

/// Cells of a ring.
pub const MOST_RING_CELLS: u64 = 65_536;

/// A round's milliseconds.
pub const MOST_WINDOW_MS: u64 = 60_000;

/// Milliseconds between sweeps.
pub const MOST_IDLE_MS: u64 = 86_400_000;

/// Sweeps that a quiet connection lives.
pub const MOST_LIVES: u64 = 255;

/// Virtual addresses.
pub const MOST_VIPS: u64 = 16;

/// Servers.
pub const MOST_SERVERS: u64 = 65_536;
