use crate::Actor;
use sr_base::Packet;

/// What happens to the machine. All but a step change the view of one actor alone, and no word.
#[derive(Clone, Copy, Debug, PartialEq, Eq)]
pub enum Event {
    /// A packet comes in on a pipe that has none in hand.
    Enter {
        /// The pipe.
        pipe: u8,
        /// The packet.
        packet: Packet,
    },
    /// The controller is told the time.
    Due {
        /// Milliseconds of capture time; they never fall.
        ms: u64,
    },
    /// The controller is told to refuse the first change that is due and finds no version number.
    Refuse,
    /// An actor makes its next atomic step.
    Step {
        /// The actor.
        actor: Actor,
    },
}
