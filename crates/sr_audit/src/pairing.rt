ghost use Rattle.std.specs.Prelude.{◌≡◌, ◌<◌, ◌&&◌, List, length, reverse, IfOk};
ghost use Rattle.std.specs.List.{list_all};
ghost use Rattle.sr_law.specs.Final.{held_is_answered, all_held_answered, answer_is_held};
ghost use Rattle.sr_law.specs.declared.line.Line.{Line as ALine};
ghost use Rattle.sr_audit.specs.Answers.{TellsAnswers};
ghost use Rattle.sr_audit.specs.HeldCounts.{TellsHeld};

use crate::answers::Answers;
use crate::held_counts::HeldCounts;
use sr_law::{Line, Verdict};
use std::alloc::{AllocError, Global};

// The answers of all lines.
fn all_answers(alloc: Global, lines: &[Line]) -> Result<Answers, AllocError>
    ensures { IfOk result (λ answers. TellsAnswers answers (reverse lines.now)) }
{
    let mut answers = Answers::new(alloc);
    for line in lines {
        answers.absorb(line)?;
    }
    Ok(answers)
}

// How many openers each pipe held, of all lines.
fn all_held(alloc: Global, lines: &[Line]) -> Result<HeldCounts, AllocError>
    ensures { IfOk result (λ held. TellsHeld held (reverse lines.now)) }
{
    let mut held = HeldCounts::new(alloc);
    for i in 0..lines.len() {
        held.absorb(i, &lines[i])?;
    }
    Ok(held)
}

// A held opener, the next of its pipe after those that are counted, has its answer.
#[tactic(auto, using(crate::proofs::Answering::held_few))]
fn held_is_answered(answers: &Answers, held: &HeldCounts, line: &Line) -> bool
    ensures { (all before : List ALine) → length before < usize.MAX
        → TellsAnswers answers.now all → TellsHeld held.now before
        → result ≡ held_is_answered all line.now before }
{
    match *line {
        Line::Packet {
            entered,
            pipe,
            key,
            verdict: Verdict::Held(_),
            ..
        } => answers.answer(pipe, held.count(pipe).saturating_add(1), key, entered),
        _ => true,
    }
}

// Each held opener has its answer.
#[tactic(auto, using(sr_law::proofs::Newest::newest_more))]
fn all_held_answered(alloc: Global, answers: &Answers, lines: &[Line]) -> Result<bool, AllocError>
    requires { TellsAnswers answers.now (reverse lines.now) }
    ensures { IfOk result (λ all. all ≡ all_held_answered (reverse lines.now) (reverse lines.now)) }
{
    let mut held = HeldCounts::new(alloc);
    let mut all = true;
    for i in 0..lines.len() {
        let line = &lines[i];
        let answered = held_is_answered(answers, &held, line);
        all = answered && all;
        held.absorb(i, line)?;
    }
    Ok(all)
}

// An answer is to an opener that was held.
fn answer_is_held(held: &HeldCounts, line: &Line) -> bool
    ensures { (all : List ALine) → TellsHeld held.now all → result ≡ answer_is_held all line.now }
{
    match *line {
        Line::Answer { pipe, nth, .. } => 1 <= nth && nth as u64 <= held.count(pipe),
        _ => true,
    }
}

// Each answer is to an opener that was held.
#[tactic(auto, using(sr_law::proofs::Newest::newest_more))]
fn all_answers_held(held: &HeldCounts, lines: &[Line]) -> bool
    requires { TellsHeld held.now (reverse lines.now) }
    ensures { result ≡ list_all (answer_is_held (reverse lines.now)) (reverse lines.now) }
{
    let mut all = true;
    for line in lines {
        let is_held = answer_is_held(held, line);
        all = is_held && all;
    }
    all
}

// Answers and held openers pair: each held opener has its answer, and each answer its opener.
pub(crate) fn pair(alloc: Global, lines: &[Line]) -> Result<bool, AllocError>
    ensures { IfOk result (λ pair. pair ≡ (all_held_answered (reverse lines.now) (reverse lines.now)
        && list_all (answer_is_held (reverse lines.now)) (reverse lines.now))) }
{
    let answers = all_answers(alloc, lines)?;
    let held = all_held(alloc, lines)?;
    let answered = all_held_answered(alloc, &answers, lines)?;
    Ok(answered && all_answers_held(&held, lines))
}
