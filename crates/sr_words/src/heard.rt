ghost use Rattle.std.specs.Prelude.{◌≡◌};
ghost use Rattle.sr_words.specs.Hearing.{IsGood, with_ms, with_refusal};
ghost use Rattle.sr_words.specs.declared.heard.Heard.TheVariants.{Entered};

use sr_base::{Packet, key_ranges};

/// What a board was told since its last step. The next step makes it known.
#[derive(Clone, Copy)]
pub enum Heard {
    /// Nothing.
    Nothing,
    /// A packet entered.
    Entered {
        /// The packet.
        packet: Packet,
    },
    /// The time.
    Time {
        /// It, in milliseconds of capture time.
        ms: u64,
    },
    /// A change is to be refused.
    Refusal {
        /// The time that was told before it.
        before: Option<u64>,
        /// The time that was told after it.
        after: Option<u64>,
    },
}

impl Heard {
    // A packet entered, too.
    pub(crate) fn enter(&mut self, packet: Packet)
        ensures { self.new ≡ Entered packet }
    {
        *self = Heard::Entered { packet };
    }

    // The time, too.
    pub(crate) fn due(&mut self, ms: u64)
        ensures { self.new ≡ with_ms ms self.old }
    {
        *self = match *self {
            Heard::Refusal { before, .. } => Heard::Refusal {
                before,
                after: Some(ms),
            },
            _ => Heard::Time { ms },
        };
    }

    // A refusal, too.
    pub(crate) fn refuse(&mut self)
        ensures { self.new ≡ with_refusal self.old }
    {
        let before = match *self {
            Heard::Time { ms } => Some(ms),
            _ => None,
        };
        *self = Heard::Refusal {
            before,
            after: None,
        };
    }

    // The ranges of the parts of the key of a packet that entered.
    pub(crate) fn packet_ranges(&self)
        ensures { IsGood self.now }
    {
        if let Heard::Entered { packet } = *self {
            key_ranges(packet.key);
        }
    }
}
