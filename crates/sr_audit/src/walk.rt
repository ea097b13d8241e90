ghost use Rattle.std.specs.Prelude.{◌≡◌, ◌⊎◌, ◌+◌, ◌≤◌, None, Some, reverse, take, length, IfOk, MatchResult};
ghost use Rattle.sr_base.specs.Limit.{limit_of};
ghost use Rattle.sr_law.specs.Lawful.{IsLawful, first_broken, breach_of};
ghost use Rattle.sr_law.specs.Retire.{endings_of};
ghost use Rattle.sr_law.specs.Shaped.{IsShaped};
ghost use Rattle.sr_law.specs.declared.check_refusal.CheckRefusal.TheVariants.{Memory};

use crate::audit::Audit;
use crate::endings::Endings;
use crate::final_lines::meets_final;
use crate::judge::broken;
use sr_law::{CheckRefusal, Clause, Line, Setup};
use std::alloc::{AllocError, Global};

// The first line that breaks a clause, and the first clause that it breaks: each line is judged by what is known of the lines before it,
// and of the Ending packets of all lines.
fn first_broken(
    alloc: Global,
    setup: &Setup,
    lines: &[Line],
) -> Result<Option<CheckRefusal>, AllocError>
    requires shape { IsShaped setup.now.shape }
    requires vips { length setup.now.pools ≤ 16 }
    ensures { IfOk result (λ first. first ≡ first_broken setup.now (endings_of (reverse lines.now)) (reverse lines.now)) }
{
    let mut audit = Audit::new(alloc, setup)?;
    let mut endings = Endings::of(alloc, lines)?;
    for i in 0..lines.len() {
        let line = &lines[i];
        endings.advance(line.out())?;
        if let Some(clause) = broken(&audit, &endings, setup, &lines[..i], line) {
            return Ok(Some(CheckRefusal::Breach {
                line: i + 1,
                clause,
            }));
        }
        audit.absorb(setup, &lines[..i], line)?;
    }
    Ok(None)
}

// What breaks the law first.
#[tactic(auto, unfolding(sr_law::specs::Lawful::breach_of))]
fn breach_of(
    alloc: Global,
    setup: &Setup,
    lines: &[Line],
) -> Result<Option<CheckRefusal>, AllocError>
    requires shape { IsShaped setup.now.shape }
    requires vips { length setup.now.pools ≤ 16 }
    ensures { IfOk result (λ breach. breach ≡ breach_of setup.now lines.now) }
{
    match first_broken(alloc, setup, lines)? {
        Some(breach) => Ok(Some(breach)),
        None => {
            if meets_final(alloc, setup, lines)? {
                Ok(None)
            } else {
                Ok(Some(CheckRefusal::Breach {
                    line: lines.len() + 1,
                    clause: Clause::Final,
                }))
            }
        }
    }
}

/// Judges a list of printed lines in one walk. Ok exactly where the list is lawful for the setup. `Breach` names the first line, from 1, that
/// breaks a clause, and the first clause in the order of `Clause` that it breaks; a list that only lacks a final line breaks `Final` at one
/// past its last line. `Memory` comes only for want of memory.
pub fn check(alloc: Global, setup: &Setup, lines: &[Line]) -> Result<(), CheckRefusal>
    requires { limit_of setup.now.shape (length setup.now.pools) setup.now.servers ≡ None }
    ensures { MatchResult result (λ _. IsLawful setup.now lines.now)
        (λ refusal. (refusal ≡ Memory) ⊎ (breach_of setup.now lines.now ≡ Some refusal)) }
{
    match breach_of(alloc, setup, lines) {
        Ok(None) => Ok(()),
        Ok(Some(breach)) => Err(breach),
        Err(_) => Err(CheckRefusal::Memory),
    }
}
