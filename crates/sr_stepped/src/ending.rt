ghost use Rattle.std.specs.Prelude.{◌≡◌, ◌++◌, IfOk, reverse};
ghost use Rattle.sr_core.specs.HeldPipes.{views_of};
ghost use Rattle.sr_machine.specs.Core.{newest_first, pipe_lines};

use sr_law::Line;
use sr_pipe::Pipe;
use sr_scripted::in_order;
use std::alloc::{AllocError, Global};

/// The lines of the pipes, and these others of the controller, by their ticks.
pub(crate) fn lines_of(
    alloc: Global,
    pipes: &[Pipe],
    others: &[Line],
) -> Result<Vec<Line>, AllocError>
    ensures { IfOk result (λ v. v.items ≡ reverse (newest_first (pipe_lines (views_of pipes.now) ++ others.now))) }
{
    let mut lines = pipes_lines(alloc, pipes)?;
    lines.extend_from_slice(others)?;
    in_order(lines)
}

// The lines of the pipes, one pipe after another.
fn pipes_lines(alloc: Global, pipes: &[Pipe]) -> Result<Vec<Line>, AllocError>
    ensures { IfOk result (λ v. v.items ≡ pipe_lines (views_of pipes.now)) }
{
    let mut lines = Vec::new(alloc);
    for pipe in pipes {
        lines.extend_from_slice(pipe.lines())?;
    }
    Ok(lines)
}
