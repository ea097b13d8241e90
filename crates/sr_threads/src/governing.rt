ghost use Rattle.std.specs.Prelude.{◌≡◌};
ghost use Rattle.sr_picks.specs.Play.{finds_nothing};
ghost use Rattle.sr_threads.specs.Governing.{Governed, Governs};

use sr_ctl::Controller;
use sr_machine::Turn;
use sr_words::WordBoard;
use std::alloc::AllocError;
use std::sync::atomic::{AtomicU64, Ordering};
use std::thread;

// The controller's turns in a round, at most.
const MOST_TURNS: u64 = 1 << 20;

// Those in a row that find nothing to do, once every pipe has handled its packets.
const MOST_WAITS: u64 = 1 << 10;

/// Makes the controller's turns of a round. They end after 2^20, or once so many pipes have finished and 1,024 in a row found nothing to
/// do. Turns past 2^56 ticks or words are taken for want of memory.
pub fn govern(
    controller: &mut Controller,
    board: &mut WordBoard<'_>,
    finished: &AtomicU64,
    pipes: u64,
) -> Result<(), AllocError>
    requires { Governs board.old controller.old }
    ensures { Governed board.old controller.old board.new controller.new }
{
    let mut waits: u64 = 0;
    for _turn in 0..MOST_TURNS {
        let done = finished.load(Ordering::SeqCst) == pipes;
        match turn(controller, board)? {
            true => {
                thread::yield_now();
                waits = if done { waits + 1 } else { 0 };
            }
            false => waits = 0,
        }
        if waits >= MOST_WAITS {
            return Ok(());
        }
    }
    Ok(())
}

// Makes a turn, and answers whether it found nothing to do.
fn turn(controller: &mut Controller, board: &mut WordBoard<'_>) -> Result<bool, AllocError>
    requires { Governs board.old controller.old }
    ensures { Governed board.old controller.old board.new controller.new }
{
    if !controller.can_turn() {
        return Err(AllocError);
    }
    match controller.turn(board) {
        Turn::Did(_) => Ok(false),
        Turn::NotYet { .. } => Ok(false),
        Turn::NoRoom { .. } => Ok(true),
        Turn::VersionsFull { .. } => Ok(true),
        Turn::Idle => Ok(true),
        Turn::Memory => Err(AllocError),
    }
}
