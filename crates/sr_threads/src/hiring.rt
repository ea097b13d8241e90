ghost use Rattle.std.specs.Prelude.{◌≡◌, ℕ, IfOk, length, map};
ghost use Rattle.std.specs.List.{list_any};
ghost use Rattle.sr_machine.specs.Core.{pipe_lines};
ghost use Rattle.sr_threads.specs.Hiring.{Hired, held_by, views_in};
ghost use Rattle.sr_words.specs.Boarding.{held, new_boards};

use crate::worker::Worker;
use sr_base::Layout;
use sr_law::Line;
use sr_pipe::Pipe;
use sr_words::{Switch, WordBoard};
use std::alloc::{AllocError, Global};

/// A pipe for each of these boards of a switch, in order of their numbers.
pub fn hire<'a>(
    alloc: Global,
    switch: &Switch,
    layout: &Layout,
    boards: Vec<WordBoard<'a>>,
) -> Result<Vec<Worker<'a>>, AllocError>
    requires layout { layout.now ≡ switch.now.table.shared.key.layout }
    requires boards { map held boards.items ≡ new_boards switch.now.table.shared.key switch.now.table.shared.table_id 0 layout.now.shape.pipes }
    ensures { IfOk result (λ ws. Hired switch.now.table.shared.key switch.now.table.shared.table_id 0 layout.now.shape.pipes ws.items) }
{
    let _ = switch;
    let mut boards = boards;
    let mut workers = Vec::new(alloc);
    for number in 0..layout.shape().pipes {
        let board = boards.remove(0);
        let pipe = Pipe::new(alloc, number, layout);
        workers.push(Worker {
            board,
            pipe,
            short: false,
        })?;
    }
    Ok(workers)
}

/// The boards again, once their pipes are done with.
pub fn dismiss<'a>(
    alloc: Global,
    workers: Vec<Worker<'a>>,
) -> Result<Vec<WordBoard<'a>>, AllocError>
    ensures { IfOk result (λ boards. map held boards.items ≡ held_by workers.entry.items) }
{
    let mut workers = workers;
    let mut boards = Vec::new(alloc);
    while !workers.is_empty() {
        let Worker {
            board,
            pipe: _,
            short: _,
        } = workers.remove(0);
        boards.push(board)?;
    }
    Ok(boards)
}

/// The lines of these pipes, one pipe after another.
pub fn lines_of_all(alloc: Global, workers: &[Worker<'_>]) -> Result<Vec<Line>, AllocError>
    ensures { IfOk result (λ v. v.items ≡ pipe_lines (views_in workers.now)) }
{
    let mut lines = Vec::new(alloc);
    for worker in workers {
        lines.extend_from_slice(worker.pipe.lines())?;
    }
    Ok(lines)
}

/// Whether a packet found no room at one of these pipes.
pub fn any_short(workers: &[Worker<'_>]) -> bool
    ensures { result ≡ list_any (λ w. w.short) workers.now }
{
    workers.iter().any(|worker| worker.short)
}
