ghost use Rattle.std.specs.Prelude.{◌≡◌};
ghost use denote.Param.Send.{IsSync};
ghost use Rattle.sr_threads.specs.Governing.{Governed, Governs};
ghost use Rattle.sr_threads.specs.Working.{AllReady, AllWorked, IsReady, Worked, share_in};

use crate::governing::govern;
use crate::worker::Worker;
use sr_base::Layout;
use sr_ctl::Controller;
use sr_io::Gate;
use sr_rounds::Timed;
use sr_words::WordBoard;
use std::alloc::AllocError;
use std::sync::atomic::{AtomicU64, Ordering};
use std::thread::{Threads, for_each_mut, join_mut};

// All pipes handle their packets of a round, each in a thread of its own where one can be made, and tell so when they have finished.
fn all_work<R: Threads + Sync, G: Gate + Sync>(
    rt: &R,
    layout: &Layout,
    packets: &[Timed],
    gate: &G,
    finished: &AtomicU64,
    workers: &mut [Worker<'_>],
)
    requires { AllReady layout.now workers.old }
    ensures { AllWorked layout.now packets.now workers.old workers.new }
{
    for_each_mut(
        rt,
        workers,
        16,
        &|_pipe: usize, worker: &mut Worker|
            requires { IsReady layout.now worker.now }
            ensures { Worked worker.entry.now (share_in layout.entry.now worker.entry.now.pipe.view.number packets.entry.now) worker.exit.now }
        {
            worker.work(layout, packets, gate);
            finished.fetch_add(1, Ordering::SeqCst);
        },
    );
}

/// Plays a round: all pipes handle their packets while the controller makes its turns.
pub fn play_round<R: Threads + Sync, G: Gate + Sync>(
    rt: &R,
    layout: &Layout,
    packets: &[Timed],
    gate: &G,
    controller: &mut Controller,
    board: &mut WordBoard<'_>,
    workers: &mut [Worker<'_>],
) -> Result<(), AllocError>
    requires pipes { AllReady layout.now workers.old }
    requires controller { Governs board.old controller.old }
    ensures pipes { AllWorked layout.now packets.now workers.old workers.new }
    ensures controller { Governed board.old controller.old board.new controller.new }
{
    let count = workers.len() as u64;
    let finished = AtomicU64::new(0);
    let (_, governed) = join_mut(
        rt,
        &mut ||
            requires { IsSync R.row × AllReady layout.now workers.now }
            ensures { AllWorked layout.entry.now packets.entry.now workers.entry.now workers.exit.now }
        { all_work(rt, layout, packets, gate, &finished, workers) },
        &mut || govern(controller, board, &finished, count),
    );
    governed
}
