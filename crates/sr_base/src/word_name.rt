use crate::Place;

/// The name of a shared word.
#[derive(Clone, Copy, Debug, PartialEq, Eq)]
pub enum WordName {
    /// The next tick to be drawn.
    Tick,
    /// 0, or the tick at which the packet that the pipe has in hand entered.
    Note {
        /// The pipe.
        pipe: u8,
    },
    /// A cell of a pipe's ring: 0, or a packed `RingWord`.
    Ring {
        /// The pipe.
        pipe: u8,
        /// The cell, from 0.
        cell: u32,
    },
    /// A cell of the connection table: a packed `SlotWord`.
    Slot {
        /// Which of the two hash functions leads to the bucket, 1 or 2.
        way: u8,
        /// The bucket, from 0.
        bucket: u32,
        /// The cell in the bucket, 0 to 3.
        cell: u8,
    },
    /// A row of the table of full keys: a packed `FullWord`.
    Full {
        /// The row, from 0.
        row: u32,
    },
    /// 1 where a packet went by the entry at this place since the last sweep, else 0.
    Hit {
        /// The place of the entry.
        place: Place,
    },
    /// What the pipes read of a virtual address: a packed `VipWord`.
    Vip {
        /// The number of the virtual address.
        vip: u8,
    },
    /// The head of a version of a pool: 0, or a packed `RowHead`.
    Head {
        /// The number of the virtual address.
        vip: u8,
        /// The version.
        version: u8,
    },
    /// The number of a server of a version of a pool.
    Member {
        /// The number of the virtual address.
        vip: u8,
        /// The version.
        version: u8,
        /// The server's place in the pool, from 0.
        index: u8,
    },
    /// 1 where the server was taken down, else 0.
    Down {
        /// The number of the server.
        server: u32,
    },
    /// 64 bits of the transit filter: bit j of word i stands for place 64 i + j.
    Filter {
        /// Which word of the filter, from 0.
        index: u32,
    },
}
