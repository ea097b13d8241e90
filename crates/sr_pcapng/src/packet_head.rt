/// What the fields of an enhanced packet block say.
#[derive(Clone, Copy, Debug, PartialEq, Eq)]
pub struct PacketHead {
    /// When the packet was captured, in whole milliseconds.
    pub ms: u64,
    /// The link type of its interface.
    pub link: u16,
    /// How many captured bytes it has.
    pub captured: u32,
}
