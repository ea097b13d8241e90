ghost use Rattle.std.specs.Prelude.{◌≡◌, ℕ, ◌^◌, ◌<◌, Some};
ghost use Rattle.sr_base.specs.Fields.{RoundTrip, Unpacks};
ghost use Rattle.sr_base.specs.VipWord.{packed_vip, unpacked_vip, NextFits, IsVipWord};

use crate::Version;
use crate::version::version_in;

/// How far the update of a virtual address's pool is (SilkRoad, SIGCOMM 2017: the steps of a pool's update).
#[derive(Clone, Copy, Debug, PartialEq, Eq)]
pub enum Phase {
    /// No update: packets without an entry go by the current version.
    Steady,
    /// As in Steady, and openers are recorded in the transit filter.
    Recording,
    /// Openers without an entry are held; other packets without one go by the current version.
    Holding,
    /// Packets without an entry go by the next version, but for those that the transit filter tells: of these the openers are held, and the
    /// others go by the current version.
    Transit,
}

/// What the pipes read of a virtual address.
#[derive(Clone, Copy, Debug, PartialEq, Eq)]
pub struct VipWord {
    /// How far its update is.
    pub phase: Phase,
    /// The current version of its pool.
    pub cur: Version,
    /// The version that the update goes to; in Steady the current one.
    pub next: Version,
}

impl VipWord {
    /// The word as a number: its phase in bits 12 and 13, its current version in bits 6 to 11, its next one in bits 0 to 5.
    pub fn pack(&self) -> u64
        requires { NextFits self.now.phase self.now.cur self.now.next }
        ensures value { result ≡ packed_vip self.now }
        ensures bits { result < 2 ^ 14 }
    {
        let phase: u64 = match self.phase {
            Phase::Steady => 0,
            Phase::Recording => 1,
            Phase::Holding => 2,
            Phase::Transit => 3,
        };
        (phase * (1 << 6) + self.cur.number() as u64) * (1 << 6) + self.next.number() as u64
    }

    /// The word of a packed number. None exactly where no word packs to it.
    pub fn unpack(word: u64) -> Option<VipWord>
        ensures value { result ≡ unpacked_vip word }
        ensures exact { Unpacks packed_vip IsVipWord word result }
    {
        let cur = version_in(word >> 6);
        let next = version_in(word);
        let phase = match word >> 12 {
            0 if next == cur => Phase::Steady,
            1 => Phase::Recording,
            2 => Phase::Holding,
            3 => Phase::Transit,
            _ => return None,
        };
        Some(VipWord { phase, cur, next })
    }
}

/// The law of the packing: a packed word unpacks to itself, and to nothing else.
pub fn vip_unpacks(word: VipWord) -> Option<VipWord>
    requires { NextFits word.phase word.cur word.next }
    ensures same { result ≡ Some word }
    ensures law { RoundTrip packed_vip IsVipWord unpacked_vip }
{
    VipWord::unpack(word.pack())
}
