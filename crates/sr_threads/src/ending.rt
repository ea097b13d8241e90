ghost use Rattle.std.specs.Prelude.{◌≡◌, ◌++◌, List, IfOk, false, map, reverse};
ghost use Rattle.std.specs.List.{list_any};
ghost use Rattle.atomic_table.specs.Seated.{TableId};
ghost use Rattle.sr_ctl.specs.SeenController.{SeenController};
ghost use Rattle.sr_machine.specs.Core.{newest_first, pipe_lines};
ghost use Rattle.sr_machine.specs.declared.pipe_view.PipeView.{PipeView as APipeView};
ghost use Rattle.sr_scripted.specs.Played.{settled_for};
ghost use Rattle.sr_threads.specs.Hiring.{held_by, views_in};
ghost use Rattle.sr_threads.specs.Replayed.{AtWork, Ends, MayEnd};
ghost use Rattle.sr_words.specs.Boarding.{held};

use crate::hiring::{any_short, dismiss, lines_of_all};
use crate::worker::Worker;
use sr_base::Key;
use sr_ctl::{Controller, settling_is_the_machines};
use sr_law::Line;
use sr_machine::Settled;
use sr_scripted::{Played, in_order};
use sr_words::{
    Boards, Rested, WordBoard, boards_know_their_pipes, shown_states_meet_the_invariant,
};
use std::alloc::{AllocError, Global};

/// The boards rest, turns are made until nothing is left to do, and the lines are put together.
pub fn end<'a>(
    alloc: Global,
    controller: &mut Controller,
    board: WordBoard<'a>,
    workers: Vec<Worker<'a>>,
) -> Result<(Played, Rested), AllocError>
    requires { (t : TableId) × AtWork controller.old.config t workers.items board controller.old }
    ensures lines { IfOk result (λ r. Ends controller.old.config (views_in workers.entry.items) controller.old.view r.0.lines.items r.0.awaited) }
    ensures whole { IfOk result (λ r. list_any (λ w. w.short) workers.entry.items ≡ false) }
    ensures table { IfOk result (λ r. r.1.seat.table_id ≡ board.entry.seat.table_id) }
{
    let lines = lines_of(alloc, &workers)?;
    let boards = gather(alloc, board, workers)?;
    let ended = settle(controller, boards, lines)?;
    Ok(ended)
}

// The boards of a switch again.
fn gather<'a>(
    alloc: Global,
    board: WordBoard<'a>,
    workers: Vec<Worker<'a>>,
) -> Result<Boards<'a>, AllocError>
    requires { (t : TableId) × (c : SeenController) × AtWork c.config t workers.items board c }
    ensures pipes { IfOk result (λ b. map held b.pipes.items ≡ held_by workers.entry.items) }
    ensures controller { IfOk result (λ b. b.controller ≡ board.entry) }
{
    boards_know_their_pipes();
    let pipes = dismiss(alloc, workers)?;
    Ok(Boards {
        pipes,
        controller: board,
    })
}

// The lines of all pipes, unless a packet found no room.
fn lines_of(alloc: Global, workers: &[Worker<'_>]) -> Result<Vec<Line>, AllocError>
    ensures lines { IfOk result (λ v. v.items ≡ pipe_lines (views_in workers.now)) }
    ensures whole { IfOk result (λ v. list_any (λ w. w.short) workers.now ≡ false) }
{
    if any_short(workers) {
        return Err(AllocError);
    }
    lines_of_all(alloc, workers)
}

// The boards rest, and turns are made until nothing is left to do. These are the pipes' lines.
fn settle(
    controller: &mut Controller,
    boards: Boards<'_>,
    lines: Vec<Line>,
) -> Result<(Played, Rested), AllocError>
    requires { (views : List APipeView) × MayEnd boards controller.old lines.items views }
    ensures lines { IfOk result (λ r. (views : List APipeView) → MayEnd boards.entry controller.old lines.items views
        → Ends controller.old.config views controller.old.view r.0.lines.items r.0.awaited) }
    ensures table { IfOk result (λ r. r.1.seat.table_id ≡ boards.entry.controller.seat.table_id) }
{
    shown_states_meet_the_invariant();
    settling_is_the_machines();
    let mut resting = boards.rest();
    let settled = controller.settle_all(&mut resting);
    let rested = resting.leave();
    let played = put_together(lines, controller.lines(), settled)?;
    Ok((played, rested))
}

// These lines and those of the controller by their ticks, and the key that an update waits for after turns that ended so, if one does.
fn put_together(lines: Vec<Line>, others: &[Line], settled: Settled) -> Result<Played, AllocError>
    ensures lines { IfOk result (λ played. played.lines.items ≡ reverse (newest_first (lines.items ++ others.now))) }
    ensures awaited { IfOk result (λ played. settled ≡ settled_for played.awaited) }
{
    let awaited = awaited(settled)?;
    let mut lines = lines;
    lines.extend_from_slice(others)?;
    let lines = in_order(lines)?;
    Ok(Played { lines, awaited })
}

// The key that an update waits for after turns that ended so, if one does.
fn awaited(settled: Settled) -> Result<Option<Key>, AllocError>
    ensures { IfOk result (λ key. settled ≡ settled_for key) }
{
    match settled {
        Settled::Quiet => Ok(None),
        Settled::Waiting { key } => Ok(Some(key)),
        Settled::Memory => Err(AllocError),
    }
}
