ghost use Rattle.std.specs.Prelude.{◌≡◌, IfOk};
ghost use Rattle.sr_interleave.specs.Together.{AreTogether, held};
ghost use Rattle.sr_steps.specs.Running.{PlaysRound, PlaysRounds};

use crate::sharing::shares;
use crate::telling::tell;
use sr_ctl::Controller;
use sr_interleave::interleave;
use sr_pipe::Pipe;
use sr_plain::PlainBoard;
use sr_rounds::{Round, Timed};
use std::alloc::{AllocError, Global};

/// Plays these rounds, one after another, by the picks of a seed.
pub fn play_rounds(
    alloc: Global,
    packets: &[Timed],
    rounds: &[Round],
    seed: u64,
    board: &mut PlainBoard,
    pipes: &mut [Pipe],
    controller: &mut Controller,
) -> Result<(), AllocError>
    requires { AreTogether board.old pipes.old controller.old }
    ensures together { AreTogether board.new pipes.new controller.new }
    ensures config { controller.new.config ≡ controller.old.config }
    ensures played { IfOk result (λ done. PlaysRounds packets.now rounds.now seed (held board.old pipes.old controller.old)
        (held board.new pipes.new controller.new)) }
{
    let mut generator = seed;
    for round in rounds {
        generator = play_round(alloc, packets, round, generator, board, pipes, controller)?;
    }
    Ok(())
}

/// Plays a round: the time of its window is told, and the packets are shared. It answers the generator after it.
pub fn play_round(
    alloc: Global,
    packets: &[Timed],
    round: &Round,
    generator: u64,
    board: &mut PlainBoard,
    pipes: &mut [Pipe],
    controller: &mut Controller,
) -> Result<u64, AllocError>
    requires { AreTogether board.old pipes.old controller.old }
    ensures together { AreTogether board.new pipes.new controller.new }
    ensures config { controller.new.config ≡ controller.old.config }
    ensures played { IfOk result (λ last. PlaysRound packets.now round.now generator last (held board.old pipes.old controller.old)
        (held board.new pipes.new controller.new)) }
{
    let count = controller.config().layout().shape().pipes;
    let shares = shares(alloc, packets, round, count)?;
    tell(board, controller, round.start_ms);
    let last = interleave(alloc, board, pipes, &shares, controller, generator)?;
    Ok(last)
}
