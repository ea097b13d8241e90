use sr_base::{Packet, Place, RowHead, Version};
use sr_law::Verdict;
use sr_machine::Flight;

/// How far a packet in flight has come. Lists of places stand whole, with the position of the one that is next.
#[derive(Clone, Copy)]
pub enum Course {
    /// It loads the word at this one of its key's places.
    Look {
        /// The places, in order.
        places: [Place; 12],
        /// Which of them.
        at: usize,
    },
    /// It stores a hit for the entry that it found.
    Hit {
        /// Where the entry stands.
        place: Place,
        /// Its version.
        version: Version,
    },
    /// It loads the word of this one of its key's places of the transit filter.
    Filter {
        /// The places, in order.
        bits: [u32; 3],
        /// Which of them.
        at: usize,
    },
    /// It loads the head of a version.
    Head {
        /// The version.
        version: Version,
    },
    /// It loads its server.
    Member {
        /// The version.
        version: Version,
        /// What the head told.
        head: RowHead,
    },
    /// It loads whether the server is down.
    Down {
        /// The version.
        version: Version,
        /// The number of the pool.
        pool: u64,
        /// The server.
        server: u32,
    },
    /// It loads the cell of the ring.
    Ring {
        /// The verdict.
        verdict: Verdict,
    },
    /// It sets this one of its key's places of the transit filter.
    Mark {
        /// The verdict.
        verdict: Verdict,
        /// The places, in order.
        bits: [u32; 3],
        /// Which of them.
        at: usize,
    },
    /// It stores its report.
    Push {
        /// The verdict.
        verdict: Verdict,
    },
    /// It draws its last tick.
    Out {
        /// The verdict.
        verdict: Verdict,
    },
}

/// The next step of a pipe.
#[derive(Clone, Copy)]
pub enum Track {
    /// No packet is in hand.
    Idle,
    /// It draws the tick at which the packet enters.
    Enter {
        /// The packet.
        packet: Packet,
    },
    /// It stores this tick in the note.
    Note {
        /// The packet.
        packet: Packet,
        /// The tick.
        entered: u64,
    },
    /// It loads the word of the virtual address.
    Vip {
        /// The packet.
        packet: Packet,
        /// The tick at which it entered.
        entered: u64,
    },
    /// The packet is in flight.
    Fly {
        /// The packet, with that word.
        flight: Flight,
        /// How far it has come.
        course: Course,
    },
    /// It clears the note.
    Leave {
        /// The packet.
        flight: Flight,
    },
}
