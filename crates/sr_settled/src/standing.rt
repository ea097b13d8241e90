ghost use Rattle.std.specs.Prelude.{◌≡◌, ◌++◌, ◌∷◌, List, IfOk, OnOk, reverse, []};
ghost use Rattle.std.specs.List.{list_any};
ghost use Rattle.sr_base.specs.Place.{same_place};
ghost use Rattle.sr_law.specs.Settled.{standing};
ghost use Rattle.sr_law.specs.declared.line.Line.{Line as ALine};

use sr_base::{Key, Place};
use sr_law::Line;
use std::alloc::{AllocError, Global};

// The place is one of these.
fn is_among(cleared: &[Place], place: Place) -> bool
    ensures { result ≡ list_any (same_place place) (reverse cleared.now) }
{
    cleared.iter().rev().any(|at| place.same(*at))
}

// One line before those that were looked at: the tick at which it places an entry of this key that none of them cleared, or a place that it clears.
#[tactic(auto, using(crate::proofs::Stepping::stands_more, crate::proofs::Stepping::clears_more))]
fn look(
    ticks: &mut Vec<u64>,
    cleared: &mut Vec<Place>,
    line: &Line,
    c: Key,
) -> Result<(), AllocError>
    ensures { OnOk result ((rest : List ALine) → ticks.old.items ++ standing c (reverse cleared.old.items) (line.now ∷ rest)
        ≡ ticks.new.items ++ standing c (reverse cleared.new.items) rest) }
{
    match *line {
        Line::Placed { out, key, place } => {
            if key.same(c) && !is_among(cleared.as_slice(), place) {
                ticks.push(out)?;
            }
        }
        Line::Cleared { place, .. } => cleared.push(place)?,
        _ => {}
    }
    Ok(())
}

// The ticks at which entries of a key were placed that no later line cleared, from the newest on.
pub(crate) fn standing(alloc: Global, lines: &[Line], c: Key) -> Result<Vec<u64>, AllocError>
    ensures { IfOk result (λ ticks. ticks.items ≡ standing c [] (reverse lines.now)) }
{
    let mut ticks = Vec::new(alloc);
    let mut cleared = Vec::new(alloc);
    for later in 0..lines.len() {
        look(&mut ticks, &mut cleared, &lines[lines.len() - 1 - later], c)?;
    }
    Ok(ticks)
}
