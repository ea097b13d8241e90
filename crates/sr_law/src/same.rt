ghost use Rattle.std.specs.Prelude.{◌≡◌, reverse};
ghost use Rattle.sr_law.specs.Same.{meets_same};

use crate::Line;
use crate::openings::opening;

// A packet of an open connection that began after its opening has the opening's pool.
pub(crate) fn meets_same(before: &[Line], line: &Line) -> bool
    ensures { result ≡ meets_same (reverse before.now) line.now }
{
    match line.choice() {
        Some(choice) => match opening(before, choice.key) {
            Some(opening) => line.start() <= opening.out || choice.pool == opening.pool,
            None => true,
        },
        None => true,
    }
}
