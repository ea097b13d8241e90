ghost use Rattle.std.specs.Prelude.{◌≡◌, IfOk, reverse};
ghost use Rattle.sr_machine.specs.Core.{newest_first};

use sr_law::Line;
use std::alloc::AllocError;

/// Lines by their ticks.
pub fn in_order(mut lines: Vec<Line>) -> Result<Vec<Line>, AllocError>
    ensures { IfOk result (λ v. v.items ≡ reverse (newest_first lines.items)) }
{
    lines.sort_by(|a, b| b.out().cmp(&a.out()))?;
    lines.reverse();
    Ok(lines)
}
