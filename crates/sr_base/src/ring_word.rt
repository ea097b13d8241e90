ghost use Rattle.std.specs.Prelude.{◌≡◌, ℕ, ◌^◌, ◌<◌, Some};
ghost use Rattle.sr_base.specs.Fields.{RoundTrip, Unpacks};
ghost use Rattle.sr_base.specs.RingWord.{kind_number, packed_ring, unpacked_ring, TellsVersion, IsRingWord};

use crate::key::key_in;
use crate::version::version_in;
use crate::{Key, Version};

/// What a pipe reports to the controller.
#[derive(Clone, Copy, Debug, PartialEq, Eq)]
pub enum RingKind {
    /// An opener was sent to a server by a version of the pool: the connection is to be learned.
    Learn,
    /// An opener was held.
    Punt,
    /// An ending packet of a connection went by.
    Close,
}

/// A report in a pipe's ring. The word 0 is an empty cell and no report.
#[derive(Clone, Copy, Debug, PartialEq, Eq)]
pub struct RingWord {
    /// What is reported.
    pub kind: RingKind,
    /// The version of a Learn; 0 with the other kinds.
    pub version: Version,
    /// Whose packet it was.
    pub key: Key,
}

impl RingWord {
    /// The report as a number: its kind in bits 58 and 59, its version in bits 52 to 57, its key in bits 0 to 51.
    pub fn pack(&self) -> u64
        requires { TellsVersion self.now.kind self.now.version }
        ensures value { result ≡ packed_ring self.now }
        ensures bits { result < 2 ^ 60 }
    {
        let kind = match self.kind {
            RingKind::Learn => 1,
            RingKind::Punt => 2,
            RingKind::Close => 3,
        };
        (kind * (1 << 6) + self.version.number() as u64) * (1 << 52) + self.key.pack()
    }

    /// The report of a packed number. None exactly where no report packs to it.
    pub fn unpack(word: u64) -> Option<RingWord>
        ensures value { result ≡ unpacked_ring word }
        ensures exact { Unpacks packed_ring IsRingWord word result }
    {
        let key = key_in(word);
        let version = version_in(word >> 52);
        match word >> 58 {
            1 => Some(RingWord {
                kind: RingKind::Learn,
                version,
                key,
            }),
            2 if version.number() == 0 => Some(RingWord {
                kind: RingKind::Punt,
                version,
                key,
            }),
            3 if version.number() == 0 => Some(RingWord {
                kind: RingKind::Close,
                version,
                key,
            }),
            _ => None,
        }
    }
}

/// The law of the packing: a packed report unpacks to itself, and to nothing else.
pub fn ring_unpacks(word: RingWord) -> Option<RingWord>
    requires { TellsVersion word.kind word.version }
    ensures same { result ≡ Some word }
    ensures law { RoundTrip packed_ring IsRingWord unpacked_ring }
{
    RingWord::unpack(word.pack())
}
