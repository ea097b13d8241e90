ghost use Rattle.std.specs.Prelude.{◌≡◌};
ghost use Rattle.sr_pcap.specs.declared.next.Next.TheVariants as next;

use sr_io::ReadFault;

/// What a reader answers when it is asked for the next record.
#[derive(Clone, Copy, Debug, PartialEq, Eq)]
pub enum Next {
    /// A record is whole.
    Whole {
        /// When it was captured, in whole milliseconds.
        ms: u64,
        /// Where its header begins, in bytes from the capture's begin.
        offset: u64,
    },
    /// No byte follows the last record.
    End,
    /// The input ends inside a record.
    Truncated {
        /// Where its header begins.
        offset: u64,
    },
    /// The source failed.
    ReadFault,
    /// A record has more captured bytes than 262,144.
    TooLong {
        /// Where its header begins.
        offset: u64,
        /// How many captured bytes it says that it has.
        length: u32,
    },
}

impl From<ReadFault> for Next {
    ghost from_gives = { λ _ e. e ≡ next.ReadFault };

    fn from(_: ReadFault) -> Next {
        Next::ReadFault
    }
}
