ghost use Rattle.std.specs.Prelude.{◌≡◌, IfOk, length, map};
ghost use Rattle.std.specs.List.{range_with_len};
ghost use Rattle.sr_core.specs.HeldPipes.{views_of};
ghost use Rattle.sr_interleave.specs.Together.{ArePipes};
ghost use Rattle.sr_machine.specs.Pipe.{fresh_pipe};

use sr_base::Layout;
use sr_pipe::Pipe;
use std::alloc::{AllocError, Global};

/// As many pipes as the layout has, in order of their numbers, each of which has done nothing yet.
pub fn new_pipes(alloc: Global, layout: &Layout) -> Result<Vec<Pipe>, AllocError>
    ensures count { IfOk result (λ ps. length ps.items ≡ layout.now.shape.pipes) }
    ensures each { IfOk result (λ ps. ArePipes layout.now 0 ps.items) }
    ensures views { IfOk result (λ ps. views_of ps.items ≡ map fresh_pipe (range_with_len 0 layout.now.shape.pipes)) }
{
    let mut pipes = Vec::new(alloc);
    for number in 0..layout.shape().pipes {
        pipes.push(Pipe::new(alloc, number, layout))?;
    }
    Ok(pipes)
}
