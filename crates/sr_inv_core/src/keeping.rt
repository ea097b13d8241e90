ghost use Rattle.std.specs.Prelude.{ℕ};
ghost use Rattle.sr_core.specs.HeldCore.{StepsTo, state_of};
ghost use Rattle.sr_core.specs.PlainWords.{ShowsWords};
ghost use Rattle.sr_inv_core.specs.Keeps.{IsOfController, IsOfPipe, IsOfUpdate, StandsOn};
ghost use Rattle.sr_machine.specs.Core.{step_event};
ghost use Rattle.sr_machine.specs.Keeping.{Brings};
ghost use Rattle.sr_inv_facts.specs.Fitted.{IsPacket};
ghost use Rattle.sr_machine.specs.declared.name.Name.{Name as AName};

use sr_base::key_ranges;
use sr_core::Core;
use sr_machine::{Event, Stepped};

/// Makes an event of a pipe, a packet that enters or a step of it, and keeps the invariant.
pub fn keeps_reads(core: &mut Core, event: Event) -> Stepped
    requires { IsOfPipe event }
    ensures step { (words : AName → ℕ) → ShowsWords core.old.config.layout core.old.words words
        → StepsTo result (step_event event (state_of core.old words)) core.old core.new }
    ensures kept { StandsOn core.old core.new }
{
    keeps(core, event)
}

/// Makes a step of the controller, of an act that places, moves, retires or answers, and keeps the invariant.
pub fn keeps_inserts(core: &mut Core, event: Event) -> Stepped
    requires { IsOfController event }
    ensures step { (words : AName → ℕ) → ShowsWords core.old.config.layout core.old.words words
        → StepsTo result (step_event event (state_of core.old words)) core.old core.new }
    ensures kept { StandsOn core.old core.new }
{
    keeps(core, event)
}

/// Makes a step of the controller, of an act of an update, an outage or a sweep, or tells it the clock or a refusal, and keeps the
/// invariant.
pub fn keeps_phases(core: &mut Core, event: Event) -> Stepped
    requires { IsOfUpdate event }
    ensures step { (words : AName → ℕ) → ShowsWords core.old.config.layout core.old.words words
        → StepsTo result (step_event event (state_of core.old words)) core.old core.new }
    ensures kept { StandsOn core.old core.new }
{
    keeps(core, event)
}

// Makes any event.
pub(crate) fn keeps(core: &mut Core, event: Event) -> Stepped
    ensures step { (words : AName → ℕ) → ShowsWords core.old.config.layout core.old.words words
        → StepsTo result (step_event event (state_of core.old words)) core.old core.new }
    ensures kept { StandsOn core.old core.new }
{
    event_ranges(&event);
    core.step(event)
}

// The ranges of the parts of the key of a packet that enters.
fn event_ranges(event: &Event)
    ensures { Brings IsPacket event.now }
{
    if let Event::Enter { packet, .. } = *event {
        key_ranges(packet.key);
    }
}
