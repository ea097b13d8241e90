ghost use Rattle.std.specs.Prelude.{◌≡◌, List};
ghost use Rattle.sr_base.specs.WordName.{HasPlace};
ghost use Rattle.sr_base.specs.declared.place.Place.{Place as APlace};
ghost use Rattle.sr_core.specs.Ranges.{SaidFits};
ghost use Rattle.sr_machine.specs.Stages.{looked};
ghost use Rattle.sr_pipe.specs.Choices.{FoundFits, found_leg};

use sr_base::{Layout, Place, Version};
use sr_core::course::is_opener;
use sr_machine::{Flight, Said};

/// What the places of a key say to its packet.
#[derive(Clone, Copy)]
pub enum Found {
    /// No entry that it goes by, so far.
    Nothing,
    /// A reserved entry, which holds it: it is an opener.
    Reserved,
    /// A live entry.
    Live {
        /// Where it stands.
        place: Place,
        /// Its version.
        version: Version,
    },
}

// What a packet finds at a place that says this.
pub(crate) fn found_at(layout: &Layout, flight: &Flight, place: Place, said: Said) -> Found
    requires place { HasPlace layout.now.shape place }
    requires said { SaidFits layout.now said }
    ensures leg { (rest : List APlace) → found_leg layout.now flight.now rest result ≡ looked layout.now flight.now place rest said }
    ensures fits { FoundFits layout.now result }
{
    let _ = layout;
    match said {
        Said::Nothing => Found::Nothing,
        Said::Reserved => {
            if is_opener(flight.packet.kind) {
                Found::Reserved
            } else {
                Found::Nothing
            }
        }
        Said::Live(version) => Found::Live { place, version },
    }
}
