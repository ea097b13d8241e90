ghost use Rattle.std.specs.Prelude.{◌≡◌, ◌∷◌, [], MatchOption};
ghost use Rattle.sr_picks.specs.Play.{is_handled};

use sr_base::Packet;
use std::marker::Model;

/// What a pipe hasn't handled yet of its share of a round, in order.
#[derive(Drop)]
pub(crate) struct Share<'a> {
    left: &'a [Packet],
}

impl<'a> Model for Share<'a> {
    ghost use Rattle.std.specs.Prelude.{List};
    ghost use Rattle.sr_base.specs.declared.packet.Packet.{Packet};

    ghost Value = { List Packet };

    ghost view = { λ s. s.left.now };
}

impl<'a> Share<'a> {
    /// A share of these packets.
    pub(crate) fn new(packets: &'a [Packet]) -> Share<'a>
        ensures { result ≡ packets.now }
    {
        Share { left: packets }
    }

    /// Whether nothing is left of it.
    pub(crate) fn is_handled(&self) -> bool
        ensures { result ≡ is_handled self.now }
    {
        self.left.is_empty()
    }

    /// The next packet, which isn't left any more. None where nothing is left.
    pub(crate) fn take(&mut self) -> Option<Packet>
        ensures { MatchOption result ((self.old ≡ []) × (self.new ≡ [])) (λ p. self.old ≡ p ∷ self.new) }
    {
        let (packet, rest) = self.left.split_first()?;
        self.left = rest;
        Some(*packet)
    }
}
