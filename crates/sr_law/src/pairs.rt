ghost use Rattle.std.specs.Prelude.{◌≡◌, ◌+◌, ◌≤◌, reverse, length, count_by};
ghost use Rattle.std.specs.List.{list_any, list_all};
ghost use Rattle.sr_law.specs.Full.{held_count};
ghost use Rattle.sr_law.specs.Final.{answers, answers_rightly, is_answered, held_is_answered, all_held_answered, answer_is_held, meets_final};

use crate::full::held_count;
use crate::packets::same_packets;
use crate::{Line, Setup, Verdict};
use sr_base::Key;

// The line is an answer to the nth held opener of this pipe.
fn answers(pipe: u8, nth: usize, line: &Line) -> bool
    ensures { result ≡ answers pipe nth line.now }
{
    match *line {
        Line::Answer {
            pipe: at,
            nth: n,
            ..
        } => at == pipe && n as usize == nth,
        _ => false,
    }
}

// How many such answers there are.
fn count_answers(all: &[Line], pipe: u8, nth: usize) -> usize
    ensures { result ≡ count_by (answers pipe nth) (reverse all.now) }
{
    all.iter()
        .rev()
        .filter(|line| answers(pipe, nth, line))
        .count()
}

// The line is such an answer, for this key, after the opener had entered.
fn answers_rightly(pipe: u8, nth: usize, key: Key, entered: u64, line: &Line) -> bool
    ensures { result ≡ answers_rightly pipe nth key entered line.now }
{
    match *line {
        Line::Answer {
            out,
            pipe: at,
            nth: n,
            key: of_key,
            ..
        } => at == pipe && n as usize == nth && of_key.same(key) && entered < out,
        _ => false,
    }
}

// Some line is such an answer.
fn any_answers_rightly(all: &[Line], pipe: u8, nth: usize, key: Key, entered: u64) -> bool
    ensures { result ≡ list_any (answers_rightly pipe nth key entered) (reverse all.now) }
{
    all.iter()
        .rev()
        .any(|line| answers_rightly(pipe, nth, key, entered, line))
}

// There is one such answer, and it is right.
#[tactic(auto, unfolding(crate::specs::Final::is_answered))]
fn is_answered(all: &[Line], pipe: u8, nth: usize, key: Key, entered: u64) -> bool
    ensures { result ≡ is_answered (reverse all.now) pipe nth key entered }
{
    count_answers(all, pipe, nth) == 1 && any_answers_rightly(all, pipe, nth, key, entered)
}

// The next held opener of a pipe after these lines has its answer.
fn is_next_answered(all: &[Line], before: &[Line], pipe: u8, key: Key, entered: u64) -> bool
    ensures { result ≡ is_answered (reverse all.now) pipe (1 + held_count pipe (reverse before.now)) key entered }
{
    is_answered(all, pipe, 1 + held_count(pipe, before), key, entered)
}

// A held opener, the next of its pipe after these lines, has its answer.
fn held_is_answered(all: &[Line], line: &Line, before: &[Line]) -> bool
    ensures { result ≡ held_is_answered (reverse all.now) line.now (reverse before.now) }
{
    match *line {
        Line::Packet {
            entered,
            pipe,
            key,
            verdict: Verdict::Held(_),
            ..
        } => is_next_answered(all, before, pipe, key, entered),
        _ => true,
    }
}

/// Each held opener has its answer.
#[tactic(auto, using(crate::proofs::Newest::newest_more))]
pub fn all_held_answered(all: &[Line]) -> bool
    ensures { result ≡ all_held_answered (reverse all.now) (reverse all.now) }
{
    let mut every = true;
    for i in 0..all.len() {
        if !held_is_answered(all, &all[i], &all[..i]) {
            every = false;
        }
    }
    every
}

// An answer is to an opener that was held.
fn answer_is_held(all: &[Line], line: &Line) -> bool
    ensures { result ≡ answer_is_held (reverse all.now) line.now }
{
    match *line {
        Line::Answer { pipe, nth, .. } => 1 <= nth && nth as usize <= held_count(pipe, all),
        _ => true,
    }
}

/// Each answer is to an opener that was held.
pub fn all_answers_held(all: &[Line]) -> bool
    ensures { result ≡ list_all (answer_is_held (reverse all.now)) (reverse all.now) }
{
    all.iter().rev().all(|line| answer_is_held(all, line))
}

// The first lines are there; the packets are those of the setup, each as often as there; and answers and held openers pair.
#[tactic(auto, unfolding(crate::specs::Final::meets_final))]
pub(crate) fn meets_final(setup: &Setup, all: &[Line]) -> bool
    ensures { result ≡ meets_final setup.now (reverse all.now) }
{
    setup.pools.vips() <= all.len()
        && same_packets(all, &setup.packets)
        && all_held_answered(all)
        && all_answers_held(all)
}
