ghost use Rattle.std.specs.Prelude.{◌≡◌};
ghost use Rattle.sr_pcapng.specs.Stop.{said};
ghost use Rattle.sr_pcapng.specs.declared.stop.Stop.TheVariants as stop;

use crate::NgNext;
use sr_io::ReadFault;

/// Why no packet comes. The offsets are those of the block in which it is found.
#[derive(Clone, Copy, Debug, PartialEq, Eq)]
pub enum Stop {
    /// No byte follows the last block, and there was a block.
    End,
    /// The input ends inside a block, or is empty.
    Truncated {
        /// Where the block begins.
        offset: u64,
    },
    /// The source failed.
    ReadFault,
    /// A packet has more captured bytes than 262,144.
    TooLong {
        /// Where its block begins.
        offset: u64,
        /// How many captured bytes it says that it has.
        length: u32,
    },
    /// A block breaks the format.
    Block {
        /// Where it begins.
        offset: u64,
    },
    /// A section's magic is that of neither byte order.
    Magic,
    /// A section's major version isn't 1.
    Major,
    /// There are too many blocks, or too many interfaces in a section.
    TooMany {
        /// Where the block begins.
        offset: u64,
    },
}

impl Stop {
    /// The answer that says so.
    pub fn said(self) -> NgNext
        ensures { result ≡ said self }
    {
        match self {
            Stop::End => NgNext::End,
            Stop::Truncated { offset } => NgNext::Truncated { offset },
            Stop::ReadFault => NgNext::ReadFault,
            Stop::TooLong { offset, length } => NgNext::TooLong { offset, length },
            Stop::Block { offset } => NgNext::Block { offset },
            Stop::Magic => NgNext::Magic,
            Stop::Major => NgNext::Major,
            Stop::TooMany { offset } => NgNext::TooMany { offset },
        }
    }
}

impl From<ReadFault> for Stop {
    ghost from_gives = { λ _ e. e ≡ stop.ReadFault };

    fn from(_: ReadFault) -> Stop {
        Stop::ReadFault
    }
}
