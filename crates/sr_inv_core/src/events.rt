ghost use Rattle.std.specs.Prelude.{◌≡◌, ℕ, true};
ghost use Rattle.sr_core.specs.HeldCore.{Shows, state_of};
ghost use Rattle.sr_core.specs.PlainWords.{ShowsWords};
ghost use Rattle.sr_inv_core.specs.Keeps.{StandsOn, led};
ghost use Rattle.sr_machine.specs.declared.name.Name.{Name as AName};

use crate::keeping::keeps;
use sr_core::Core;
use sr_machine::{Event, Stepped};

/// Makes these events one after another, each where it can be made, whatever they are, and keeps the invariant. False where there was no
/// memory for one of them; then those before it were made.
pub fn keeps_all(core: &mut Core, events: &[Event]) -> bool
    ensures led { (words : AName → ℕ) → ShowsWords core.old.config.layout core.old.words words
        → result ≡ true → Shows core.new (led events.now (state_of core.old words)) }
    ensures kept { StandsOn core.old core.new }
{
    match events.first() {
        None => true,
        Some(first) => match keeps(core, *first) {
            Stepped::Memory => false,
            _ => keeps_all(core, &events[1..]),
        },
    }
}
