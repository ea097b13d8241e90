ghost use Rattle.std.specs.Prelude.{◌≡◌, nat_lt, IfOk, reverse, Some};
ghost use Rattle.std.specs.List.{list_any};
ghost use Rattle.sr_law.specs.Settled.{all_used, quiet_settled, standing, uses_after, was_used};
ghost use Rattle.sr_law.specs.Shaped.{IsShaped};

use crate::connections::is_open;
use crate::standing::standing;
use crate::sweeps::numbered_sweep;
use sr_base::{Key, Shape};
use sr_hash::clashes;
use sr_law::{Line, Setup, Sweep};
use std::alloc::{AllocError, Global};

// A packet of this key, or of one that clashes with it, was out after this tick.
fn uses_after(shape: &Shape, c: Key, tick: u64, line: &Line) -> bool
    requires { IsShaped shape.now }
    ensures { result ≡ uses_after shape.now c tick line.now }
{
    match *line {
        Line::Packet { out, key, .. } => (key.same(c)
            || clashes(shape, 1, key, c)
            || clashes(shape, 2, key, c))
            && tick < out,
        _ => false,
    }
}

// Some line is one of such a packet.
fn is_used_after(setup: &Setup, lines: &[Line], c: Key, tick: u64) -> bool
    requires { IsShaped setup.now.shape }
    ensures { result ≡ list_any (uses_after setup.now.shape c tick) (reverse lines.now) }
{
    lines
        .iter()
        .rev()
        .any(|line| uses_after(&setup.shape, c, tick, line))
}

// One of these ticks is before this one.
fn is_any_before(ticks: &[u64], tick: u64) -> bool
    ensures { result ≡ list_any (λ placed. nat_lt placed tick) ticks.now }
{
    ticks.iter().any(|placed| *placed < tick)
}

// A key that is open, and was placed before this tick and not cleared, was used after it.
fn was_used(
    alloc: Global,
    setup: &Setup,
    lines: &[Line],
    tick: u64,
    key: Option<Key>,
) -> Result<bool, AllocError>
    requires { IsShaped setup.now.shape }
    ensures { IfOk result (λ used. used ≡ was_used setup.now (reverse lines.now) tick key) }
{
    match key {
        Some(key) => {
            let stood = is_any_before(standing(alloc, lines, key)?.as_slice(), tick);
            Ok(!is_open(lines, key) || (!stood || is_used_after(setup, lines, key, tick)))
        }
        None => Ok(true),
    }
}

// Each key was used since this sweep.
#[tactic(auto, using(sr_law::proofs::Newest::newest_more))]
fn all_used(alloc: Global, setup: &Setup, lines: &[Line], sweep: Sweep) -> Result<bool, AllocError>
    requires { IsShaped setup.now.shape }
    ensures { IfOk result (λ used. used ≡ all_used setup.now (reverse lines.now) (Some sweep)) }
{
    let mut all = true;
    for line in lines {
        let used = was_used(alloc, setup, lines, sweep.from, line.key())?;
        all = used && all;
    }
    Ok(all)
}

// No connection is left that was quiet for so many sweeps up to the last one.
pub(crate) fn quiet_settled(
    alloc: Global,
    setup: &Setup,
    lines: &[Line],
    last: Option<Sweep>,
) -> Result<bool, AllocError>
    requires { IsShaped setup.now.shape }
    ensures { IfOk result (λ settled. settled ≡ quiet_settled setup.now (reverse lines.now) last) }
{
    match last {
        Some(last) => {
            let lives = setup.shape.lives as u64;
            if last.number <= lives {
                return Ok(true);
            }
            match numbered_sweep(lines, last.number - lives) {
                Some(sweep) => all_used(alloc, setup, lines, sweep),
                None => Ok(true),
            }
        }
        None => Ok(true),
    }
}
