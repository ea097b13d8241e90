ghost use Rattle.std.specs.Prelude.{◌≡◌, ℕ};
ghost use Rattle.sr_base.specs.declared.packet.Packet.{Packet as APacket};

use sr_base::Packet;
use sr_rounds::Timed;

/// What is kept of a packet: the packet alone, or with its time.
pub trait Kept {
    /// What is kept of a packet with this time.
    ghost kept: { APacket → ℕ → Self };

    /// Keeps a packet with this time.
    fn keep(packet: Packet, ms: u64) -> Self
        ensures { result ≡ kept packet ms };
}

impl Kept for Packet {
    ghost kept = { λ packet ms. packet };

    fn keep(packet: Packet, _ms: u64) -> Packet {
        packet
    }
}

impl Kept for Timed {
    ghost kept = { λ packet ms. record { packet = packet; ms = ms } };

    fn keep(packet: Packet, ms: u64) -> Timed {
        Timed { packet, ms }
    }
}
