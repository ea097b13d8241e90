ghost use Rattle.std.specs.Prelude.{◌≡◌};
ghost use Rattle.sr_machine.specs.Names.{word_name};

use sr_base::{Place, WordName};

/// The name of a shared word, as the definitions of the steps have it: the words of slots and rows are one kind, that of an
/// entry.
#[derive(Clone, Copy)]
pub enum Name {
    /// The next tick to be drawn.
    Tick,
    /// 0, or the tick at which the packet that a pipe has in hand entered.
    Note {
        /// The pipe.
        pipe: u8,
    },
    /// A cell of a pipe's ring.
    Ring {
        /// The pipe.
        pipe: u8,
        /// The cell, from 0.
        cell: u32,
    },
    /// A cell of the connection table or a row of the table of full keys.
    Entry {
        /// Where it stands.
        place: Place,
    },
    /// 1 where a packet went by the entry at a place since the last sweep, else 0.
    Hit {
        /// The place of the entry.
        place: Place,
    },
    /// What the pipes read of a virtual address.
    Vip {
        /// The number of the virtual address.
        vip: u8,
    },
    /// The head of a version of a pool.
    Head {
        /// The number of the virtual address.
        vip: u8,
        /// The version.
        version: u8,
    },
    /// A server of a version of a pool.
    Member {
        /// The number of the virtual address.
        vip: u8,
        /// The version.
        version: u8,
        /// The server's place in the pool, from 0.
        index: u8,
    },
    /// 1 where a server was taken down, else 0.
    Down {
        /// The number of the server.
        server: u32,
    },
    /// 64 bits of the transit filter.
    Filter {
        /// Which word of the filter, from 0.
        index: u32,
    },
}

impl Name {
    /// The name by which a layout places the word.
    pub fn word(self) -> WordName
        ensures { result ≡ word_name self }
    {
        match self {
            Name::Tick => WordName::Tick,
            Name::Note { pipe } => WordName::Note { pipe },
            Name::Ring { pipe, cell } => WordName::Ring { pipe, cell },
            Name::Entry { place } => match place {
                Place::Slot { way, bucket, cell } => WordName::Slot { way, bucket, cell },
                Place::Row { row } => WordName::Full { row },
            },
            Name::Hit { place } => WordName::Hit { place },
            Name::Vip { vip } => WordName::Vip { vip },
            Name::Head { vip, version } => WordName::Head { vip, version },
            Name::Member {
                vip,
                version,
                index,
            } => WordName::Member {
                vip,
                version,
                index,
            },
            Name::Down { server } => WordName::Down { server },
            Name::Filter { index } => WordName::Filter { index },
        }
    }
}
