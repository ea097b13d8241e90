ghost use Rattle.std.specs.Prelude.{◌≡◌, ◌≤◌, IfOk, reverse, length};
ghost use Rattle.sr_law.specs.Rows.{is_group_full};
ghost use Rattle.sr_law.specs.Settled.{has_place, places_settled};
ghost use Rattle.sr_law.specs.Shaped.{IsShaped};

use crate::connections::is_open;
use crate::standing::standing;
use sr_base::Key;
use sr_law::{Line, Setup, Verdict, meets_cause};
use std::alloc::{AllocError, Global};

// There is no row for a key: an answer that says so would have its cause.
#[tactic(auto, unfolding(sr_law::specs::Cause::meets_cause))]
fn is_group_full(setup: &Setup, lines: &[Line], key: Key) -> bool
    requires shape { IsShaped setup.now.shape }
    requires vips { length setup.now.pools ≤ 16 }
    ensures { result ≡ is_group_full setup.now.shape (reverse lines.now) key }
{
    let answer = Line::Answer {
        out: 0,
        pipe: 0,
        nth: 0,
        key,
        verdict: Verdict::NoPlace,
    };
    meets_cause(setup, lines, &answer)
}

// A key that is open at the end has a place, or there is none for it.
fn has_place(
    alloc: Global,
    setup: &Setup,
    lines: &[Line],
    key: Option<Key>,
) -> Result<bool, AllocError>
    requires shape { IsShaped setup.now.shape }
    requires vips { length setup.now.pools ≤ 16 }
    ensures { IfOk result (λ has. has ≡ has_place setup.now (reverse lines.now) key) }
{
    match key {
        Some(key) => {
            let stands = !standing(alloc, lines, key)?.is_empty();
            Ok(!is_open(lines, key) || (stands || is_group_full(setup, lines, key)))
        }
        None => Ok(true),
    }
}

// Each one has, or there is none for it.
#[tactic(auto, using(sr_law::proofs::Newest::newest_more))]
pub(crate) fn places_settled(
    alloc: Global,
    setup: &Setup,
    lines: &[Line],
) -> Result<bool, AllocError>
    requires shape { IsShaped setup.now.shape }
    requires vips { length setup.now.pools ≤ 16 }
    ensures { IfOk result (λ settled. settled ≡ places_settled setup.now (reverse lines.now)) }
{
    let mut settled = true;
    for line in lines {
        let has = has_place(alloc, setup, lines, line.key())?;
        settled = has && settled;
    }
    Ok(settled)
}
