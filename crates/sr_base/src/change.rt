use crate::Pool;

/// What a change does.
#[derive(Debug, Drop)]
pub enum What {
    /// Gives a virtual address another pool.
    Give {
        /// The number of the virtual address.
        vip: u8,
        /// Its servers from then on.
        pool: Pool,
    },
    /// Takes a server down.
    TakeDown {
        /// The number of the server.
        server: u32,
    },
}

/// A change and when it is due.
#[derive(Debug, Drop)]
pub struct Change {
    /// When it is due, in milliseconds of capture time.
    pub at_ms: u64,
    /// What it does.
    pub what: What,
}
