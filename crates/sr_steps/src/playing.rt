ghost use Rattle.std.specs.Prelude.{◌≡◌, ◌^◌, ◌<◌, false, IfOk};
ghost use Rattle.sr_picks.specs.Play.{act_of, controller_picked, finds_nothing, has_ended, pipe_picked};
ghost use Rattle.sr_steps.specs.Standing.{Acts, EventMade, EventsMade, PlayMade, Plays, no_words, play_of};
ghost use Rattle.sr_machine.specs.declared.actor.Actor.TheVariants as actor;
ghost use Rattle.sr_machine.specs.declared.event.Event.TheVariants.{Enter as ToEnter, Step as ToStep};

use crate::Standing;
use crate::making::{make, turn};
use sr_base::Packet;
use sr_core::Core;
use sr_machine::{Actor, Event, Turn};
use std::alloc::AllocError;

/// Plays a round by picks to its end.
pub fn play(core: &mut Core, standing: &mut Standing) -> Result<(), AllocError>
    ensures { IfOk result (λ done. Plays core.old standing.old core.new standing.new) }
{
    loop {
        let mut generator = standing.generator();
        let drawn = generator.draw();
        let first = (drawn % (core.pipes() as u32 + 1)) as u8;
        match standing.first_from(core, first) {
            Some(actor) => {
                act(core, standing, actor)?;
                standing.drawn(generator);
            }
            None => return Ok(()),
        }
    }
}

/// Plays a round in order: each pipe handles its share, one pipe after another and each packet whole, and then the controller makes its
/// turns.
pub fn play_in_order(core: &mut Core, standing: &mut Standing) -> Result<(), AllocError>
    ensures { IfOk result (λ done. Acts core.old standing.old core.new standing.new) }
{
    loop {
        match standing.first_from(core, 0) {
            Some(actor) => act(core, standing, actor)?,
            None => return Ok(()),
        }
    }
}

// The actor of this number, which hasn't ended its round, acts.
fn act(core: &mut Core, standing: &mut Standing, actor: u8) -> Result<(), AllocError>
    requires { has_ended (play_of core.old no_words standing.old) actor ≡ false }
    ensures { IfOk result (λ done. PlayMade (λ p. act_of p actor) core.old standing.old core.new standing.new) }
{
    if actor == core.pipes() {
        turn_by_pick(core, standing)
    } else {
        step_by_pick(core, standing, actor)
    }
}

// A pipe makes its next step; an idle one takes the next packet of its share first.
fn step_by_pick(core: &mut Core, standing: &mut Standing, pipe: u8) -> Result<(), AllocError>
    ensures { IfOk result (λ done. PlayMade (λ p. pipe_picked p pipe) core.old standing.old core.new standing.new) }
{
    if !core.is_idle(pipe) {
        return step(core, pipe);
    }
    match standing.take(pipe) {
        Some(packet) => enter_and_step(core, pipe, packet),
        None => step(core, pipe),
    }
}

// A pipe makes its next step.
fn step(core: &mut Core, pipe: u8) -> Result<(), AllocError>
    ensures { IfOk result (λ done. EventMade (ToStep (actor.Pipe pipe)) core.old core.new) }
{
    let actor = Actor::Pipe(pipe);
    make(core, Event::Step { actor })
}

// A packet enters on a pipe, which makes its first step.
fn enter_and_step(core: &mut Core, pipe: u8, packet: Packet) -> Result<(), AllocError>
    ensures { IfOk result (λ done. EventsMade (ToEnter pipe packet) (ToStep (actor.Pipe pipe)) core.old core.new) }
{
    make(core, Event::Enter { pipe, packet })?;
    step(core, pipe)?;
    Ok(())
}

// The controller makes a turn.
fn turn_by_pick(core: &mut Core, standing: &mut Standing) -> Result<(), AllocError>
    requires { standing.old.turns < 2 ^ 20 }
    ensures { IfOk result (λ done. PlayMade controller_picked core.old standing.old core.new standing.new) }
{
    let done = standing.is_done(core);
    let answer = turn(core)?;
    standing.turned(done, finds_nothing(&answer));
    Ok(())
}

// Whether a turn found nothing to do.
fn finds_nothing(answer: &Option<Turn>) -> bool
    ensures { result ≡ finds_nothing answer.now }
{
    match answer {
        Some(Turn::NoRoom { .. }) => true,
        Some(Turn::VersionsFull { .. }) => true,
        Some(Turn::Idle) => true,
        Some(_) => false,
        None => true,
    }
}
