//! What an actor does on the plain words.

ghost use Rattle.std.specs.Prelude.{◌≡◌, ◌<◌, IfOk, OnErr};
ghost use Rattle.sr_core.specs.HeldPipes.{views_of};
ghost use Rattle.sr_interleave.specs.Acting.{BothMadeOn, EntersOn, MadeOn, StepsOn, TurnMadeOn};
ghost use Rattle.sr_interleave.specs.Together.{AreOn, IsPipe};
ghost use Rattle.sr_machine.specs.declared.actor.Actor.TheVariants as actor;
ghost use Rattle.sr_machine.specs.declared.event.Event.TheVariants.{Enter as ToEnter, Step as ToStep};

use sr_base::{Layout, Packet};
use sr_ctl::{Controller, turning_is_the_machines};
use sr_machine::{Actor, Turn};
use sr_pipe::Pipe;
use sr_plain::PlainBoard;
use std::alloc::AllocError;

// How many packets enter on a pipe, at most.
const MOST_LINES: usize = (1 << 32) - 1;

/// The pipe of this number makes its next step, if it is there and has one.
pub(crate) fn step(board: &mut PlainBoard, pipes: &mut [Pipe], pipe: u8)
    requires { AreOn board.old pipes.old }
    ensures on { AreOn board.new pipes.new }
    ensures layout { board.new.layout ≡ board.old.layout }
    ensures made { MadeOn (ToStep (actor.Pipe pipe)) board.old pipes.old board.new pipes.new }
{
    if (pipe as usize) < pipes.len() {
        step_on(board, &mut pipes[pipe as usize]);
    }
}

// A pipe makes its next step, if it has one.
fn step_on(board: &mut PlainBoard, pipe: &mut Pipe)
    requires number { pipe.old.view.number < board.old.layout.shape.pipes }
    requires layout { pipe.old.layout ≡ board.old.layout }
    ensures pipe { IsPipe board.old.layout pipe.old.view.number pipe.new }
    ensures layout { board.new.layout ≡ board.old.layout }
    ensures step { StepsOn board.old pipe.old.view board.new pipe.new.view }
{
    if pipe.is_idle() {
        return;
    }
    let number = pipe.number();
    let mut actor = board.as_actor(Actor::Pipe(number));
    pipe.step(&mut actor);
}

/// A packet enters on the pipe of this number, if it can, and the pipe makes its next step, if it has one.
pub(crate) fn enter_and_step(
    layout: &Layout,
    board: &mut PlainBoard,
    pipes: &mut [Pipe],
    pipe: u8,
    packet: Packet,
) -> Result<(), AllocError>
    requires on { AreOn board.old pipes.old }
    requires layout { layout.now ≡ board.old.layout }
    ensures on { AreOn board.new pipes.new }
    ensures layout { board.new.layout ≡ board.old.layout }
    ensures made { IfOk result (λ done. BothMadeOn (ToEnter pipe packet) (ToStep (actor.Pipe pipe)) board.old pipes.old
        board.new pipes.new) }
    ensures kept { OnErr result ((board.new ≡ board.old) × (views_of pipes.new ≡ views_of pipes.old)) }
{
    enter(layout, board, pipes, pipe, packet)?;
    step(board, pipes, pipe);
    Ok(())
}

// A packet enters on the pipe of this number, if it is there and it can.
fn enter(
    layout: &Layout,
    board: &mut PlainBoard,
    pipes: &mut [Pipe],
    pipe: u8,
    packet: Packet,
) -> Result<(), AllocError>
    requires on { AreOn board.old pipes.old }
    requires layout { layout.now ≡ board.old.layout }
    ensures on { AreOn board.new pipes.new }
    ensures layout { board.new.layout ≡ board.old.layout }
    ensures made { IfOk result (λ done. MadeOn (ToEnter pipe packet) board.old pipes.old board.new pipes.new) }
    ensures kept { OnErr result ((board.new ≡ board.old) × (views_of pipes.new ≡ views_of pipes.old)) }
{
    if (pipe as usize) < pipes.len() {
        enter_on(layout, board, &mut pipes[pipe as usize], packet)?;
    }
    Ok(())
}

// A packet enters on a pipe, if it can.
fn enter_on(
    layout: &Layout,
    board: &mut PlainBoard,
    pipe: &mut Pipe,
    packet: Packet,
) -> Result<(), AllocError>
    requires number { pipe.old.view.number < board.old.layout.shape.pipes }
    requires layout { layout.now ≡ board.old.layout }
    requires pipe { pipe.old.layout ≡ board.old.layout }
    ensures pipe { IsPipe board.old.layout pipe.old.view.number pipe.new }
    ensures layout { board.new.layout ≡ board.old.layout }
    ensures made { IfOk result (λ done. EntersOn packet board.old pipe.old.view board.new pipe.new.view) }
    ensures kept { OnErr result ((board.new ≡ board.old) × (pipe.new.view ≡ pipe.old.view)) }
{
    let can_enter = pipe.is_idle()
        && packet.key.vip < layout.vips()
        && pipe.lines().len() < MOST_LINES;
    if !can_enter {
        return Ok(());
    }
    pipe.reserve(1)?;
    let number = pipe.number();
    let mut actor = board.as_actor(Actor::Pipe(number));
    pipe.enter(&mut actor, packet);
    Ok(())
}

/// The controller makes a turn. It answers whether there was nothing to do. Turns past 2^56 ticks or words are taken for want of
/// memory.
pub(crate) fn turn(board: &mut PlainBoard, controller: &mut Controller) -> Result<bool, AllocError>
    requires { controller.old.config.layout ≡ board.old.layout }
    ensures layout { board.new.layout ≡ board.old.layout }
    ensures config { controller.new.config ≡ controller.old.config }
    ensures turned { IfOk result (λ nothing. TurnMadeOn nothing board.old controller.old board.new controller.new) }
    ensures kept { OnErr result ((board.new ≡ board.old) × (controller.new ≡ controller.old)) }
{
    turning_is_the_machines();
    if !controller.can_turn() {
        return Err(AllocError);
    }
    let mut actor = board.as_actor(Actor::Controller);
    match controller.turn(&mut actor) {
        Turn::Did(_) => Ok(false),
        Turn::NotYet { .. } => Ok(false),
        Turn::NoRoom { .. } => Ok(true),
        Turn::VersionsFull { .. } => Ok(true),
        Turn::Idle => Ok(true),
        Turn::Memory => Err(AllocError),
    }
}
