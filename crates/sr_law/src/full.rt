ghost use Rattle.std.specs.Prelude.{◌≡◌, ◌+◌, ◌≤◌, reverse, length};
ghost use Rattle.std.specs.List.{list_any};
ghost use Rattle.sr_law.specs.Full.{is_held_in, held_count, answers_before, leaves_word, may_push, was_answered, words_since, may_be_full};

use crate::{Line, Verdict};
use sr_base::{Kind, Shape};

// A line of this pipe whose packet was held.
pub(crate) fn is_held_in(pipe: u8, line: &Line) -> bool
    ensures { result ≡ is_held_in pipe line.now }
{
    match *line {
        Line::Packet {
            pipe: at,
            verdict: Verdict::Held(_),
            ..
        } => at == pipe,
        _ => false,
    }
}

// How many openers a pipe held.
#[tactic(auto, using(crate::proofs::Newest::newest_more))]
pub(crate) fn held_count(pipe: u8, before: &[Line]) -> usize
    ensures value { result ≡ held_count pipe (reverse before.now) }
    ensures bound { result ≤ length before.now }
{
    let mut count = 0;
    for line in before {
        if is_held_in(pipe, line) {
            count += 1;
        }
    }
    count
}

// The line answers the nth held opener of a pipe, before this tick.
fn answers_before(pipe: u8, nth: usize, tick: u64, line: &Line) -> bool
    ensures { result ≡ answers_before pipe nth tick line.now }
{
    match *line {
        Line::Answer {
            out,
            pipe: at,
            nth: n,
            ..
        } => at == pipe && n as usize == nth && out < tick,
        _ => false,
    }
}

// Some line answers it before this tick.
fn any_answers_before(before: &[Line], pipe: u8, nth: usize, tick: u64) -> bool
    ensures { result ≡ list_any (answers_before pipe nth tick) (reverse before.now) }
{
    before
        .iter()
        .rev()
        .any(|line| answers_before(pipe, nth, tick, line))
}

// A packet of this kind and verdict left a word in its pipe's ring, or found it full.
fn leaves_word(kind: Kind, verdict: Verdict) -> bool
    ensures { result ≡ leaves_word kind verdict }
{
    match (kind, verdict) {
        (_, Verdict::Held(_)) => true,
        (Kind::Opener, Verdict::To { .. }) => true,
        (Kind::Ending, _) => true,
        _ => false,
    }
}

// A line of this pipe whose packet may have left a word in the pipe's ring.
fn may_push(pipe: u8, line: &Line) -> bool
    ensures { result ≡ may_push pipe line.now }
{
    match *line {
        Line::Packet {
            pipe: at,
            kind,
            verdict,
            ..
        } => at == pipe && leaves_word(kind, verdict),
        _ => false,
    }
}

// The line, the next after these, holds an opener of the pipe that was answered before this tick.
fn was_answered(all: &[Line], before: &[Line], line: &Line, pipe: u8, tick: u64) -> bool
    ensures { result ≡ was_answered (reverse all.now) pipe tick line.now (reverse before.now) }
{
    is_held_in(pipe, line) && any_answers_before(all, pipe, 1 + held_count(pipe, before), tick)
}

// How many words the pipe's ring may have got since its last opener that was held and answered before this tick.
#[tactic(auto, using(crate::proofs::Newest::newest_more))]
fn words_since(all: &[Line], pipe: u8, tick: u64) -> usize
    ensures { result ≡ words_since (reverse all.now) pipe tick (reverse all.now) }
{
    let mut words = 0;
    for i in 0..all.len() {
        if was_answered(all, &all[..i], &all[i], pipe, tick) {
            words = 0;
        } else if may_push(pipe, &all[i]) {
            words += 1;
        }
    }
    words
}

// As many words as the pipe's ring has cells may not have been taken.
#[tactic(auto, unfolding(crate::specs::Full::may_be_full))]
pub(crate) fn may_be_full(shape: &Shape, before: &[Line], pipe: u8, start: u64) -> bool
    ensures { result ≡ may_be_full shape.now (reverse before.now) pipe start }
{
    shape.ring as usize <= words_since(before, pipe, start)
}
