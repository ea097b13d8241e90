ghost use Rattle.std.specs.Prelude.{◌≡◌, IfOk};
ghost use Rattle.sr_machine.specs.Settling.{awaited, ending_of};
ghost use Rattle.sr_steps.specs.Standing.{RefusedTo, RefusesTo, SettlesTo};

use crate::making::turn;
use sr_core::Core;
use sr_machine::{Event, Settled, Stepped, Turn};
use std::alloc::AllocError;

/// The controller's turns until nothing is left to do, and how they end. Turns that don't end within 2^64 - 1 are taken for want of
/// memory.
pub fn settle(core: &mut Core) -> Result<Settled, AllocError>
    ensures { IfOk result (λ settled. SettlesTo settled core.old core.new) }
{
    for _turn in 0..u64::MAX {
        match turn(core)? {
            Some(answer) => {
                if ends(core, &answer)? {
                    return Ok(ending(core));
                }
            }
            None => return Err(AllocError),
        }
    }
    Err(AllocError)
}

// Whether the turns are over with this answer. Where nothing can be done a change is refused, if that can be told.
fn ends(core: &mut Core, answer: &Turn) -> Result<bool, AllocError>
    ensures { IfOk result (λ over. RefusedTo over answer.now core.old core.new) }
{
    match answer {
        Turn::Did(_) => Ok(false),
        Turn::NotYet { .. } => Ok(false),
        Turn::NoRoom { .. } => Ok(refuses(core)?),
        Turn::VersionsFull { .. } => Ok(refuses(core)?),
        Turn::Idle => Ok(true),
        Turn::Memory => Ok(true),
    }
}

// Whether no change can be refused; else it is.
fn refuses(core: &mut Core) -> Result<bool, AllocError>
    ensures { IfOk result (λ over. RefusesTo over core.old core.new) }
{
    match core.step(Event::Refuse) {
        Stepped::Made => Ok(false),
        Stepped::NotNow => Ok(true),
        Stepped::Memory => Err(AllocError),
    }
}

// How the turns ended: an update waits for a key, or nothing is left.
fn ending(core: &Core) -> Settled
    ensures { result ≡ ending_of (awaited core.now.controller) }
{
    match core.awaited() {
        Some(key) => Settled::Waiting { key },
        None => Settled::Quiet,
    }
}
