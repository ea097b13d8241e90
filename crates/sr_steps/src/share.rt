ghost use Rattle.std.specs.Prelude.{◌≡◌, ◌≤◌, ◌∷◌, [], MatchOption, drop, length};
ghost use Rattle.sr_picks.specs.Play.{is_handled};

use sr_base::Packet;
use std::marker::Model;

/// What a pipe hasn't handled yet of its share of a round, in order.
#[derive(Drop)]
pub struct Share {
    packets: Vec<Packet>,
    next: usize,
}

impl Model for Share {
    ghost use Rattle.std.specs.Prelude.{◌≤◌, List, drop, length};
    ghost use Rattle.sr_base.specs.declared.packet.Packet.{Packet};

    ghost Value = { List Packet };

    ghost view = { λ s. drop s.next s.packets.items };

    ghost invariant = { λ s. s.next ≤ length s.packets.items };
}

impl Share {
    /// A share of these packets.
    pub fn new(packets: Vec<Packet>) -> Share
        ensures { result ≡ packets.items }
    {
        Share { packets, next: 0 }
    }

    /// Whether nothing is left of it.
    pub fn is_handled(&self) -> bool
        ensures { result ≡ is_handled self.now }
    {
        is_handled(&self.packets, self.next)
    }

    /// The next packet, which isn't left any more. None where nothing is left.
    pub fn take(&mut self) -> Option<Packet>
        ensures { MatchOption result ((self.old ≡ []) × (self.new ≡ [])) (λ p. self.old ≡ p ∷ self.new) }
    {
        if self.next == self.packets.len() {
            return None;
        }
        let packet = self.packets[self.next];
        self.next += 1;
        Some(packet)
    }
}

// Whether nothing is left of these packets from this position on.
#[tactic(auto, using(crate::proofs::Plays::handled_at))]
fn is_handled(packets: &[Packet], next: usize) -> bool
    requires { next ≤ length packets.now }
    ensures { result ≡ is_handled (drop next packets.now) }
{
    next == packets.len()
}
