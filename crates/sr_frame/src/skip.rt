/// Why a frame is skipped.
#[derive(Clone, Copy, Debug, PartialEq, Eq)]
pub enum Skip {
    /// It carries no IPv4 packet.
    NotIpv4,
    /// The packet carries no TCP segment.
    NotTcp,
    /// The packet is a fragment past the first.
    Fragment,
    /// Bytes that its headers speak of are missing.
    Short,
    /// The segment isn't for a virtual address.
    NotVip,
}
