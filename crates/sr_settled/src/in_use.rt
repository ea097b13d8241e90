ghost use Rattle.std.specs.Prelude.{◌≡◌, reverse};
ghost use Rattle.std.specs.List.{list_any};
ghost use Rattle.sr_law.specs.Cause.{all_in_use};
ghost use Rattle.sr_law.specs.Given.{last_given};
ghost use Rattle.sr_law.specs.Number.{holds_version, is_held_open, is_in_use};
ghost use Rattle.sr_law.specs.Ticks.{key_of};

use crate::connections::opening;
use sr_base::Key;
use sr_law::{Giving, Line};

// What a virtual address was last given.
#[tactic(auto, using(sr_law::proofs::Newest::newest_more))]
fn last_given(lines: &[Line], vip: u8) -> Option<Giving>
    ensures { result ≡ last_given (reverse lines.now) vip }
{
    let mut last = None;
    for line in lines {
        if let Line::Given {
            vip: to,
            version,
            pool,
            ..
        } = *line
        {
            if to == vip {
                last = Some(Giving { version, pool });
            }
        }
    }
    last
}

// The key is one of this virtual address, and is open with this version.
fn holds_version(lines: &[Line], vip: u8, version: u8, key: Option<Key>) -> bool
    ensures { result ≡ holds_version (reverse lines.now) vip version key }
{
    match key {
        Some(key) => key.vip == vip
            && match opening(lines, key) {
                Some(opening) => opening.version.number() == version,
                None => false,
            },
        None => false,
    }
}

// Some open connection of this virtual address has this version.
fn is_held_open(lines: &[Line], vip: u8, version: u8) -> bool
    ensures { result ≡ is_held_open (reverse lines.now) vip version }
{
    lines
        .iter()
        .rev()
        .any(|line| holds_version(lines, vip, version, line.key()))
}

// The version is the last one of this virtual address, or an open connection has it.
fn is_in_use(lines: &[Line], vip: u8, version: u8) -> bool
    ensures { result ≡ is_in_use (reverse lines.now) vip version }
{
    let last = match last_given(lines, vip) {
        Some(giving) => giving.version.number() == version,
        None => false,
    };
    last || is_held_open(lines, vip, version)
}

// Each version below this number is in use for this virtual address.
pub(crate) fn all_in_use(lines: &[Line], vip: u8, versions: u8) -> bool
    ensures { result ≡ all_in_use (reverse lines.now) vip versions }
{
    let mut all = true;
    for version in 0..versions {
        if !is_in_use(lines, vip, version) {
            all = false;
        }
    }
    all
}
