use sr_base::Version;

/// Why an opener was held for the controller.
#[derive(Clone, Copy, Debug, PartialEq, Eq)]
pub enum HeldBy {
    /// An entry of another connection, or its own that isn't live yet, matches it.
    Clash,
    /// Its virtual address is in the phase that lets no opener through.
    Hold,
    /// In the phase after the switch, the transit filter may hold it (SilkRoad, SIGCOMM 2017: TransitTable).
    Transit,
}

/// What became of a packet.
#[derive(Clone, Copy, Debug, PartialEq, Eq)]
pub enum Verdict {
    /// It went to this server, of the pool of this number, which this version names.
    To {
        /// The server's number.
        server: u32,
        /// The version of the virtual address's pool.
        version: Version,
        /// The pool's number, from 1.
        pool: u64,
    },
    /// The controller will answer it.
    Held(HeldBy),
    /// It would have gone to this server, which is down.
    Down {
        /// The server's number.
        server: u32,
        /// The version of the virtual address's pool.
        version: Version,
        /// The pool's number, from 1.
        pool: u64,
    },
    /// An opener that found no room in its pipe's ring.
    Full,
    /// A held opener for which the tables have no place.
    NoPlace,
}
