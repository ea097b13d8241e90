ghost use Rattle.std.specs.Prelude.{◌≡◌, ℕ, ◌^◌, ◌<◌, Some};
ghost use Rattle.sr_base.specs.Fields.{RoundTrip, Unpacks};
ghost use Rattle.sr_base.specs.RowHead.{packed_head, unpacked_head, HeadFits, IsRowHead};

/// What stands before the servers of a version of a pool. The word 0 belongs to a version that isn't given, and is no head.
#[derive(Clone, Copy, Debug, PartialEq, Eq)]
pub struct RowHead {
    /// How many servers it has, from 1.
    pub size: u8,
    /// The number of the pool, of 48 bits.
    pub pool: u64,
}

impl RowHead {
    /// The head as a number: its size in bits 48 to 55, its pool in bits 0 to 47.
    pub fn pack(&self) -> u64
        requires { HeadFits self.now }
        ensures value { result ≡ packed_head self.now }
        ensures bits { result < 2 ^ 56 }
    {
        self.size as u64 * (1 << 48) + self.pool
    }

    /// The head of a packed number. None exactly where no head packs to it.
    pub fn unpack(word: u64) -> Option<RowHead>
        ensures value { result ≡ unpacked_head word }
        ensures exact { Unpacks packed_head IsRowHead word result }
    {
        if 1 << 48 <= word && word < 1 << 56 {
            Some(RowHead {
                size: (word >> 48) as u8,
                pool: word & 0xffff_ffff_ffff,
            })
        } else {
            None
        }
    }
}

/// The law of the packing: a packed head unpacks to itself, and to nothing else.
pub fn head_unpacks(head: RowHead) -> Option<RowHead>
    requires { HeadFits head }
    ensures same { result ≡ Some head }
    ensures law { RoundTrip packed_head IsRowHead unpacked_head }
{
    RowHead::unpack(head.pack())
}
