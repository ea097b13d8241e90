ghost use Rattle.std.specs.Prelude.{◌≡◌, ◌+◌, ◌≤◌, None, Some, reverse, length, MatchResult};
ghost use Rattle.sr_base.specs.Limit.{limit_of};
ghost use Rattle.sr_law.specs.Lawful.{IsLawful, broken, breach_at, first_broken, breach_of};
ghost use Rattle.sr_law.specs.Retire.{endings_of};
ghost use Rattle.sr_law.specs.Shaped.{IsShaped};

use crate::cause::meets_cause;
use crate::newer::meets_newer;
use crate::number::meets_number;
use crate::order::meets_order;
use crate::pairs::meets_final;
use crate::retire::meets_retire;
use crate::same::meets_same;
use crate::server::meets_server;
use crate::{CheckRefusal, Clause, Line, Setup};

// The first clause that a line breaks, by the lines before it and the Ending lines of all.
#[tactic(auto, unfolding(crate::specs::Lawful::broken))]
fn broken(setup: &Setup, all: &[Line], before: &[Line], line: &Line) -> Option<Clause>
    requires shape { IsShaped setup.now.shape }
    requires vips { length setup.now.pools ≤ 16 }
    ensures { result ≡ broken setup.now (endings_of (reverse all.now)) (reverse before.now) line.now }
{
    if !meets_order(setup, before, line) {
        return Some(Clause::Order);
    }
    if !meets_server(&setup.pools, before, line) {
        return Some(Clause::Server);
    }
    if !meets_same(before, line) {
        return Some(Clause::Same);
    }
    if !meets_newer(before, line) {
        return Some(Clause::Newer);
    }
    if !meets_number(setup, before, line) {
        return Some(Clause::Number);
    }
    if !meets_cause(setup, before, line) {
        return Some(Clause::Cause);
    }
    if !meets_retire(setup, all, before, line) {
        return Some(Clause::Retire);
    }
    None
}

// The first line that breaks a clause, and the first clause that it breaks.
#[tactic(auto, using(crate::proofs::Breaches::first_more, crate::proofs::Breaches::first_zero))]
fn first_broken(setup: &Setup, all: &[Line]) -> Option<CheckRefusal>
    requires shape { IsShaped setup.now.shape }
    requires vips { length setup.now.pools ≤ 16 }
    ensures { result ≡ first_broken setup.now (endings_of (reverse all.now)) (reverse all.now) }
{
    let mut first = None;
    for i in 0..all.len() {
        let next = breach_at(i, broken(setup, all, &all[..i], &all[i]));
        first = first.or(next);
    }
    first
}

// The breach of the line after these.
fn breach_at(before: usize, clause: Option<Clause>) -> Option<CheckRefusal>
    requires { before + 1 ≤ usize.MAX }
    ensures { result ≡ breach_at (before + 1) clause }
{
    match clause {
        Some(clause) => Some(CheckRefusal::Breach {
            line: before + 1,
            clause,
        }),
        None => None,
    }
}

// What breaks the law first.
#[tactic(auto, unfolding(crate::specs::Lawful::breach_of))]
fn breach_of(setup: &Setup, lines: &[Line]) -> Option<CheckRefusal>
    requires shape { IsShaped setup.now.shape }
    requires vips { length setup.now.pools ≤ 16 }
    ensures { result ≡ breach_of setup.now lines.now }
{
    match first_broken(setup, lines) {
        Some(breach) => Some(breach),
        None => {
            if meets_final(setup, lines) {
                None
            } else {
                Some(CheckRefusal::Breach {
                    line: lines.len() + 1,
                    clause: Clause::Final,
                })
            }
        }
    }
}

/// Judges a list of printed lines word by word as the definitions have it, which takes long for more than some thousands of lines. Ok exactly
/// where the list is lawful for the setup. `Breach` names the first line, from 1, that breaks a clause, and the first clause in the order
/// of `Clause` that it breaks; a list that only lacks a final line breaks `Final` at one past its last line. It takes no memory.
pub fn check_plain(setup: &Setup, lines: &[Line]) -> Result<(), CheckRefusal>
    requires { limit_of setup.now.shape (length setup.now.pools) setup.now.servers ≡ None }
    ensures { MatchResult result (λ _. IsLawful setup.now lines.now) (λ refusal. breach_of setup.now lines.now ≡ Some refusal) }
{
    match breach_of(setup, lines) {
        Some(breach) => Err(breach),
        None => Ok(()),
    }
}
