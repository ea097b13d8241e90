use sr_base::{Packet, VipWord};

/// A packet that has loaded the word of its virtual address.
#[derive(Clone, Copy)]
pub struct Flight {
    /// The packet.
    pub packet: Packet,
    /// The tick at which it entered.
    pub entered: u64,
    /// What the word of its virtual address said when it was loaded.
    pub vip: VipWord,
}
