/// What the type and the length at a block's front say that it is.
#[derive(Clone, Copy, Debug, PartialEq, Eq)]
pub enum Front {
    /// A section header, whose length is read in the byte order that its magic tells.
    Section,
    /// An interface description.
    Interface {
        /// How many bytes the block has.
        size: u32,
    },
    /// An enhanced packet block.
    Packet {
        /// How many bytes the block has.
        size: u32,
    },
    /// A block that is passed over.
    Other {
        /// How many bytes the block has.
        size: u32,
    },
}
