use sr_base::Packet;

/// A packet and the time at which it comes.
#[derive(Clone, Copy, Debug, PartialEq, Eq)]
pub struct Timed {
    /// The packet.
    pub packet: Packet,
    /// Milliseconds since the capture's first record; they never fall from one packet to the next.
    pub ms: u64,
}
