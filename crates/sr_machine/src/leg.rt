use sr_base::{Place, RowHead, Version};
use sr_law::Verdict;
use std::collections::LinkedList;

/// What a packet that has chosen a version loads next.
pub enum Load {
    /// The version's head.
    Head,
    /// Its server, of the pool that the head told.
    Member(RowHead),
    /// Whether the server is down.
    Down {
        /// The number of the pool.
        pool: u64,
        /// The server.
        server: u32,
    },
}

/// What a packet that has its verdict does next.
pub enum Last {
    /// It loads the cell of its pipe's ring that it needs.
    Ring,
    /// It sets a place of the transit filter, and then some more.
    Mark {
        /// The place.
        bit: u32,
        /// The places after it.
        rest: LinkedList<u32>,
    },
    /// It stores its report in that cell.
    Push,
    /// It draws its last tick.
    Out,
}

/// How far a packet in flight has come.
pub enum Leg {
    /// It loads the word at a place of its key, and then, while nothing there is its, at some more.
    Look {
        /// The place.
        place: Place,
        /// The places after it.
        rest: LinkedList<Place>,
    },
    /// It stores a hit for the entry that it found.
    Hit {
        /// Where the entry stands.
        place: Place,
        /// The version that it has.
        version: Version,
    },
    /// It loads the word of a place of the transit filter, and then, while these are set, of some more.
    Filter {
        /// The place.
        bit: u32,
        /// The places after it.
        rest: LinkedList<u32>,
    },
    /// It has chosen a version.
    Chosen {
        /// The version.
        version: Version,
        /// What it loads next.
        load: Load,
    },
    /// It has its verdict.
    Judged {
        /// The verdict.
        verdict: Verdict,
        /// What it does next.
        last: Last,
    },
}
