ghost use Rattle.std.specs.Prelude.{◌≡◌, reverse};
ghost use Rattle.sr_law.specs.Newer.{switched_by, last_switched, is_new_pool, meets_newer};

use crate::givings::last_given;
use crate::openings::{is_open, opened_by};
use crate::{Line, Opening};

// The pool that a line switched this virtual address to, before this tick.
fn switched_by(line: &Line, vip: u8, tick: u64) -> Option<u64>
    ensures { result ≡ switched_by line.now vip tick }
{
    match *line {
        Line::Switched { out, vip: to, pool } => if to == vip && out < tick {
            Some(pool)
        } else {
            None
        },
        _ => None,
    }
}

/// The pool that a virtual address was last switched to before this tick.
#[tactic(auto, using(crate::proofs::Newest::newest_more))]
pub fn last_switched(before: &[Line], vip: u8, tick: u64) -> Option<u64>
    ensures { result ≡ last_switched (reverse before.now) vip tick }
{
    let mut last = None;
    for line in before {
        if let Some(pool) = switched_by(line, vip, tick) {
            last = Some(pool);
        }
    }
    last
}

// The pool of an opening is from the last switch on, and one that was given.
fn is_new_pool(before: &[Line], vip: u8, start: u64, opening: Opening) -> bool
    ensures { result ≡ is_new_pool (reverse before.now) vip start (Some opening) }
{
    let from = match last_switched(before, vip, start) {
        Some(switched) => switched <= opening.pool,
        None => true,
    };
    let up_to = match last_given(before, vip) {
        Some(giving) => opening.pool <= giving.pool,
        None => true,
    };
    from && up_to
}

// An opening line uses the pool of the last switch before it started, or a later one that was given.
#[tactic(auto, unfolding(crate::specs::Newer::meets_newer))]
pub(crate) fn meets_newer(before: &[Line], line: &Line) -> bool
    ensures { result ≡ meets_newer (reverse before.now) line.now }
{
    match line.key() {
        Some(key) => is_open(before, key)
            || match opened_by(line, key) {
                Some(opening) => is_new_pool(before, key.vip, line.start(), opening),
                None => true,
            },
        None => true,
    }
}
