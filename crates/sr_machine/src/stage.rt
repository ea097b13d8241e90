use crate::{Flight, Leg};
use sr_base::Packet;

/// The next step of a pipe, with what the packet in hand has loaded so far.
pub enum Stage {
    /// No packet is in hand.
    Idle,
    /// It draws the tick at which the packet enters.
    Enter(Packet),
    /// It stores this tick in the pipe's note.
    Note {
        /// The packet.
        packet: Packet,
        /// The tick.
        entered: u64,
    },
    /// It loads the word of the packet's virtual address.
    Vip {
        /// The packet.
        packet: Packet,
        /// The tick at which it entered.
        entered: u64,
    },
    /// The packet is in flight.
    Fly {
        /// The packet, with that word.
        flight: Flight,
        /// How far it has come.
        leg: Leg,
    },
    /// It clears the note.
    Leave(Flight),
}
