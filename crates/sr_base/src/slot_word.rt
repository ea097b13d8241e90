ghost use Rattle.std.specs.Prelude.{◌≡◌, ℕ, ◌^◌, ◌<◌, Some};
ghost use Rattle.sr_base.specs.Fields.{RoundTrip, Unpacks};
ghost use Rattle.sr_base.specs.SlotWord.{slot_number, packed_slot, unpacked_slot, SlotVipFits, IsSlotWord};

use crate::Version;
use crate::version::version_in;

/// What a cell of the connection table holds: the digest of a connection and not its key (SilkRoad, SIGCOMM 2017: ConnTable).
#[derive(Clone, Copy, Debug, PartialEq, Eq)]
pub enum SlotWord {
    /// No entry.
    Empty,
    /// An entry that the controller is about to place: packets that match it are held.
    Reserved {
        /// The number of its virtual address, below 16.
        vip: u8,
        /// The digest of its key.
        digest: u16,
    },
    /// An entry: packets that match it go by its version.
    Live {
        /// The number of its virtual address, below 16.
        vip: u8,
        /// The digest of its key.
        digest: u16,
        /// The version of the pool that its connection keeps.
        version: Version,
    },
}

impl SlotWord {
    /// The cell as a number: its state in bits 26 and 27, its virtual address in bits 22 to 25, its digest in bits 6 to 21, its version in
    /// bits 0 to 5.
    pub fn pack(&self) -> u64
        requires { SlotVipFits self.now }
        ensures value { result ≡ packed_slot self.now }
        ensures bits { result < 2 ^ 28 }
    {
        match *self {
            SlotWord::Empty => 0,
            SlotWord::Reserved { vip, digest } => number(1, vip, digest, 0),
            SlotWord::Live {
                vip,
                digest,
                version,
            } => number(2, vip, digest, version.number()),
        }
    }

    /// The cell of a packed number. None exactly where no cell packs to it.
    pub fn unpack(word: u64) -> Option<SlotWord>
        ensures value { result ≡ unpacked_slot word }
        ensures exact { Unpacks packed_slot IsSlotWord word result }
    {
        let vip = (word >> 22 & 0xf) as u8;
        let digest = (word >> 6 & 0xffff) as u16;
        let version = version_in(word);
        match word >> 26 {
            0 if word == 0 => Some(SlotWord::Empty),
            1 if version.number() == 0 => Some(SlotWord::Reserved { vip, digest }),
            2 => Some(SlotWord::Live {
                vip,
                digest,
                version,
            }),
            _ => None,
        }
    }
}

// The number of these parts.
fn number(state: u64, vip: u8, digest: u16, version: u8) -> u64
    requires state { state < 4 }
    requires vip { vip < 16 }
    requires version { version < 64 }
    ensures value { result ≡ slot_number state vip digest version }
    ensures bits { result < 2 ^ 28 }
{
    ((state * (1 << 4) + vip as u64) * (1 << 16) + digest as u64) * (1 << 6) + version as u64
}

/// The law of the packing: a packed cell unpacks to itself, and to nothing else.
pub fn slot_unpacks(word: SlotWord) -> Option<SlotWord>
    requires { SlotVipFits word }
    ensures same { result ≡ Some word }
    ensures law { RoundTrip packed_slot IsSlotWord unpacked_slot }
{
    SlotWord::unpack(word.pack())
}
