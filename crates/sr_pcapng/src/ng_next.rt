/// What a reader answers when it is asked for the next packet.
#[derive(Clone, Copy, Debug, PartialEq, Eq)]
pub enum NgNext {
    /// An enhanced packet block is whole.
    Whole {
        /// When the packet was captured, in whole milliseconds, at most 2^53 - 1.
        ms: u64,
        /// The link type of its interface.
        link: u16,
        /// Where its block begins, in bytes from the capture's begin.
        offset: u64,
    },
    /// No byte follows the last block, and there was a block.
    End,
    /// The input ends inside a block, or is empty.
    Truncated {
        /// Where the block begins.
        offset: u64,
    },
    /// The source failed.
    ReadFault,
    /// A packet has more captured bytes than 262,144.
    TooLong {
        /// Where its block begins.
        offset: u64,
        /// How many captured bytes it says that it has.
        length: u32,
    },
    /// A block breaks the format.
    Block {
        /// Where it begins.
        offset: u64,
    },
    /// A section's magic is that of neither byte order.
    Magic,
    /// A section's major version isn't 1.
    Major,
    /// A block is past 16,777,216 blocks, or an interface past 1,024 of its section.
    TooMany {
        /// Where the block begins.
        offset: u64,
    },
}
