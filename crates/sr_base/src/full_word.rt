ghost use Rattle.std.specs.Prelude.{◌≡◌, ℕ, ◌^◌, ◌<◌, Some};
ghost use Rattle.sr_base.specs.Fields.{RoundTrip, Unpacks};
ghost use Rattle.sr_base.specs.FullWord.{full_number, packed_full, unpacked_full, IsFullWord};

use crate::key::key_in;
use crate::version::version_in;
use crate::{Key, Version};

/// What a row of the table of full keys holds: connections whose digests would be taken for another's.
#[derive(Clone, Copy, Debug, PartialEq, Eq)]
pub enum FullWord {
    /// No entry.
    Empty,
    /// An entry that the controller is about to place: packets of its key are held.
    Reserved {
        /// The connection.
        key: Key,
    },
    /// An entry: packets of its key go by its version.
    Live {
        /// The connection.
        key: Key,
        /// The version of the pool that it keeps.
        version: Version,
    },
}

impl FullWord {
    /// The row as a number: its state in bits 58 and 59, its version in bits 52 to 57, its key in bits 0 to 51.
    pub fn pack(&self) -> u64
        ensures value { result ≡ packed_full self.now }
        ensures bits { result < 2 ^ 60 }
    {
        match *self {
            FullWord::Empty => 0,
            FullWord::Reserved { key } => number(1, 0, key.pack()),
            FullWord::Live { key, version } => number(2, version.number(), key.pack()),
        }
    }

    /// The row of a packed number. None exactly where no row packs to it.
    pub fn unpack(word: u64) -> Option<FullWord>
        ensures value { result ≡ unpacked_full word }
        ensures exact { Unpacks packed_full IsFullWord word result }
    {
        let key = key_in(word);
        let version = version_in(word >> 52);
        match word >> 58 {
            0 if word == 0 => Some(FullWord::Empty),
            1 if version.number() == 0 => Some(FullWord::Reserved { key }),
            2 => Some(FullWord::Live { key, version }),
            _ => None,
        }
    }
}

// The number of these parts.
fn number(state: u64, version: u8, key: u64) -> u64
    requires state { state < 4 }
    requires version { version < 64 }
    requires key { key < 2 ^ 52 }
    ensures value { result ≡ full_number state version key }
    ensures bits { result < 2 ^ 60 }
{
    (state * (1 << 6) + version as u64) * (1 << 52) + key
}

/// The law of the packing: a packed row unpacks to itself, and to nothing else.
pub fn full_unpacks(word: FullWord) -> Option<FullWord>
    ensures same { result ≡ Some word }
    ensures law { RoundTrip packed_full IsFullWord unpacked_full }
{
    FullWord::unpack(word.pack())
}
