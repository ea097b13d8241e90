ghost use Rattle.std.specs.Prelude.{◌≡◌, ◌^◌, ◌<◌, false, IfOk, OnErr, map};
ghost use Rattle.sr_interleave.specs.Interleaving.{Interleaves, Picks, Plays, begun};
ghost use Rattle.sr_interleave.specs.Standing.{PlayMade, seen_play};
ghost use Rattle.sr_interleave.specs.Together.{AreTogether, held};
ghost use Rattle.sr_picks.specs.Play.{act_of, controller_picked, has_ended, pipe_picked};

use crate::acting::{enter_and_step, step, turn};
use crate::drawing::{drawn, next_state};
use crate::standing::{Standing, is_idle_in};
use sr_base::{Packet, layout_ranges};
use sr_ctl::Controller;
use sr_pipe::Pipe;
use sr_plain::PlainBoard;
use std::alloc::{AllocError, Global};

/// Plays a round by the picks of a generator: one step of a pipe, or one turn of the controller, after another, until each has ended
/// its round. It answers the generator's last state. After an error some whole picks were made, and no more.
pub fn interleave(
    alloc: Global,
    board: &mut PlainBoard,
    pipes: &mut [Pipe],
    shares: &[Vec<Packet>],
    controller: &mut Controller,
    seed: u64,
) -> Result<u64, AllocError>
    requires { AreTogether board.old pipes.old controller.old }
    ensures together { AreTogether board.new pipes.new controller.new }
    ensures config { controller.new.config ≡ controller.old.config }
    ensures played { IfOk result (λ last. Interleaves (held board.old pipes.old controller.old) (map (λ v. v.items) shares.now)
        seed (held board.new pipes.new controller.new) last) }
    ensures stopped { Picks (held board.old pipes.old controller.old) (begun (map (λ v. v.items) shares.now) seed)
        (held board.new pipes.new controller.new) }
{
    let mut standing = Standing::new(alloc, shares, seed)?;
    play(board, pipes, controller, &mut standing)?;
    Ok(standing.generator())
}

// The picks of a round, from where it stands to its end.
fn play(
    board: &mut PlainBoard,
    pipes: &mut [Pipe],
    controller: &mut Controller,
    standing: &mut Standing<'_>,
) -> Result<(), AllocError>
    requires { AreTogether board.old pipes.old controller.old }
    ensures together { AreTogether board.new pipes.new controller.new }
    ensures config { controller.new.config ≡ controller.old.config }
    ensures played { IfOk result (λ done. Plays (held board.old pipes.old controller.old) standing.old
        (held board.new pipes.new controller.new) standing.new) }
    ensures stopped { Picks (held board.old pipes.old controller.old) standing.old (held board.new pipes.new controller.new) }
{
    layout_ranges(controller.config().layout());
    let last = controller.config().layout().shape().pipes;
    loop {
        let state = next_state(standing.generator());
        let first = (drawn(state) % (last as u32 + 1)) as u8;
        match standing.first_from(pipes, controller, first) {
            Some(actor) => {
                act(board, pipes, controller, standing, actor)?;
                standing.drawn(state);
            }
            None => return Ok(()),
        }
    }
}

// The actor of this number, which hasn't ended its round, acts.
fn act(
    board: &mut PlainBoard,
    pipes: &mut [Pipe],
    controller: &mut Controller,
    standing: &mut Standing<'_>,
    actor: u8,
) -> Result<(), AllocError>
    requires together { AreTogether board.old pipes.old controller.old }
    requires going { has_ended (seen_play pipes.old controller.old standing.old) actor ≡ false }
    ensures together { AreTogether board.new pipes.new controller.new }
    ensures config { controller.new.config ≡ controller.old.config }
    ensures made { IfOk result (λ done. PlayMade (λ p. act_of p actor) (held board.old pipes.old controller.old) standing.old
        (held board.new pipes.new controller.new) standing.new) }
    ensures kept { OnErr result (held board.new pipes.new controller.new ≡ held board.old pipes.old controller.old) }
{
    if actor == controller.config().layout().shape().pipes {
        turn_by_pick(board, pipes, controller, standing)
    } else {
        step_by_pick(board, pipes, controller, standing, actor)
    }
}

// A pipe makes its next step; an idle one takes the next packet of its share first.
fn step_by_pick(
    board: &mut PlainBoard,
    pipes: &mut [Pipe],
    controller: &Controller,
    standing: &mut Standing<'_>,
    pipe: u8,
) -> Result<(), AllocError>
    requires { AreTogether board.old pipes.old controller.now }
    ensures together { AreTogether board.new pipes.new controller.now }
    ensures made { IfOk result (λ done. PlayMade (λ p. pipe_picked p pipe) (held board.old pipes.old controller.now)
        standing.old (held board.new pipes.new controller.now) standing.new) }
    ensures kept { OnErr result (held board.new pipes.new controller.now ≡ held board.old pipes.old controller.now) }
{
    if !is_idle_in(pipes, pipe) {
        step(board, pipes, pipe);
        return Ok(());
    }
    match standing.take(pipe) {
        Some(packet) => enter_and_step(controller.config().layout(), board, pipes, pipe, packet),
        None => {
            step(board, pipes, pipe);
            Ok(())
        }
    }
}

// The controller makes a turn.
fn turn_by_pick(
    board: &mut PlainBoard,
    pipes: &[Pipe],
    controller: &mut Controller,
    standing: &mut Standing<'_>,
) -> Result<(), AllocError>
    requires together { AreTogether board.old pipes.now controller.old }
    requires turns { standing.old.turns < 2 ^ 20 }
    ensures together { AreTogether board.new pipes.now controller.new }
    ensures config { controller.new.config ≡ controller.old.config }
    ensures made { IfOk result (λ done. PlayMade controller_picked (held board.old pipes.now controller.old) standing.old
        (held board.new pipes.now controller.new) standing.new) }
    ensures kept { OnErr result (held board.new pipes.now controller.new ≡ held board.old pipes.now controller.old) }
{
    let done = standing.is_done(pipes);
    let nothing = turn(board, controller)?;
    standing.turned(done, nothing);
    Ok(())
}
