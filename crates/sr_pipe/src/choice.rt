ghost use Rattle.std.specs.Prelude.{◌≡◌, ◌<◌};
ghost use Rattle.sr_machine.specs.Stages.{held_or};
ghost use Rattle.sr_pipe.specs.Choices.{ChoiceFits, choice_leg};

use sr_base::{Layout, Version};
use sr_core::course::is_opener;
use sr_law::HeldBy;
use sr_machine::Flight;

/// What becomes of a packet once it has looked.
#[derive(Clone, Copy)]
pub enum Choice {
    /// It is held.
    Held {
        /// Why.
        by: HeldBy,
    },
    /// It goes by a version.
    Goes {
        /// The version.
        version: Version,
    },
}

// Where a version is found an opener is held, and another packet has it.
pub(crate) fn held_or(layout: &Layout, flight: &Flight, by: HeldBy, version: Version) -> Choice
    requires { version < layout.now.shape.versions }
    ensures leg { choice_leg result ≡ held_or flight.now by version }
    ensures fits { ChoiceFits layout.now result }
{
    let _ = layout;
    if is_opener(flight.packet.kind) {
        Choice::Held { by }
    } else {
        Choice::Goes { version }
    }
}
