ghost use Rattle.std.specs.Prelude.{IfOk, max};
ghost use Rattle.sr_steps.specs.Standing.{EventMade, TurnMade};

use sr_core::{Controlled, Core};
use sr_machine::{Event, Stepped, Turn};
use std::alloc::AllocError;

/// Makes an event, where it can be made now.
pub(crate) fn make(core: &mut Core, event: Event) -> Result<(), AllocError>
    ensures { IfOk result (λ done. EventMade event core.old core.new) }
{
    match core.step(event) {
        Stepped::Made => Ok(()),
        Stepped::NotNow => Ok(()),
        Stepped::Memory => Err(AllocError),
    }
}

/// The controller makes a turn: what it answered, if it ended an act.
pub(crate) fn turn(core: &mut Core) -> Result<Option<Turn>, AllocError>
    ensures { IfOk result (λ answer. TurnMade answer core.old core.new) }
{
    let pipes = core.pipes();
    for _step in 0..pipes.max(4) {
        match core.control() {
            Controlled::Made => {}
            Controlled::Ended(turn) => return Ok(Some(turn)),
            Controlled::NotNow => return Ok(None),
            Controlled::Memory => return Err(AllocError),
        }
    }
    Ok(None)
}
