ghost use Rattle.std.specs.Prelude.{◌≡◌, reverse};
ghost use Rattle.sr_law.specs.Opening.{is_open, opening};

use sr_base::Key;
use sr_law::{Line, Opening, opened_by, retires};

// The opening of a connection after these lines.
#[tactic(auto, using(sr_law::proofs::Newest::newest_more))]
pub(crate) fn opening(lines: &[Line], c: Key) -> Option<Opening>
    ensures { result ≡ opening (reverse lines.now) c }
{
    let mut found = None;
    for line in lines {
        if retires(line, c) {
            found = None;
        } else if found.is_none() {
            found = opened_by(line, c);
        }
    }
    found
}

// It is open.
pub(crate) fn is_open(lines: &[Line], c: Key) -> bool
    ensures { result ≡ is_open (reverse lines.now) c }
{
    opening(lines, c).is_some()
}
