ghost use Rattle.std.specs.Prelude.{◌≡◌, reverse, length};
ghost use Rattle.std.specs.List.{list_any};
ghost use Rattle.sr_law.specs.Number.{holds_version, is_held_open, is_in_use, meets_number};
ghost use Rattle.sr_law.specs.Ticks.{key_of};

use crate::givings::{has_version, last_given};
use crate::openings::opening;
use crate::{Line, Setup};
use sr_base::Key;

// The key is one of this virtual address, and is open with this version.
fn holds_version(before: &[Line], vip: u8, version: u8, key: Option<Key>) -> bool
    ensures { result ≡ holds_version (reverse before.now) vip version key }
{
    match key {
        Some(key) => key.vip == vip
            && match opening(before, key) {
                Some(opening) => opening.version.number() == version,
                None => false,
            },
        None => false,
    }
}

// Some open connection of this virtual address has this version.
fn is_held_open(before: &[Line], vip: u8, version: u8) -> bool
    ensures { result ≡ is_held_open (reverse before.now) vip version }
{
    before
        .iter()
        .rev()
        .any(|line| holds_version(before, vip, version, line.key()))
}

// The version is the last one of this virtual address, or an open connection has it.
pub(crate) fn is_in_use(before: &[Line], vip: u8, version: u8) -> bool
    ensures { result ≡ is_in_use (reverse before.now) vip version }
{
    has_version(last_given(before, vip), version) || is_held_open(before, vip, version)
}

/// A version that is given after the first lines is one of the shape and isn't in use.
#[tactic(auto, unfolding(crate::specs::Number::meets_number))]
pub fn meets_number(setup: &Setup, before: &[Line], line: &Line) -> bool
    ensures { result ≡ meets_number setup.now (reverse before.now) line.now }
{
    match *line {
        Line::Given { vip, version, .. } => {
            before.len() < setup.pools.vips()
                || (version.number() < setup.shape.versions
                    && !is_in_use(before, vip, version.number()))
        }
        _ => true,
    }
}
