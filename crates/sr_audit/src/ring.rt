ghost use Rattle.std.specs.Prelude.{◌≡◌, ◌-◌, ℕ, ◌<◌, ◌∷◌, nat_lt, List, OnOk, length, reverse, Some};
ghost use Rattle.sr_law.specs.declared.line.Line.{Line as ALine};
ghost use Rattle.sr_audit.specs.Lately.{Falls};
ghost use Rattle.sr_audit.specs.Rings.{AnswersOne, counted_in, greater, HoldsOne, is_held, IsNew, marked_before, Pushed, TellsRing};

use sr_law::{Line, Verdict};
use std::alloc::{AllocError, Global};
use std::collections::BTreeMap;

// When an opener that was held was answered: all words up to its own were taken then.
#[derive(Clone, Copy)]
pub(crate) struct Mark {
    out: u64,
    pushes: u64,
}

impl Mark {
    // It was before this tick.
    fn is_before(&self, tick: u64) -> bool
        ensures { result ≡ nat_lt self.now.out tick }
    {
        self.out < tick
    }
}

// The words that a pipe's ring may have got: how many there are, how many openers were held, how many there were with each of these, when
// each was first answered, and the marks, each of as many words as the one before it or more.
#[derive(Drop)]
pub(crate) struct Ring {
    pushes: u64,
    count: u64,
    held: BTreeMap<u64, u64>,
    answered: BTreeMap<u64, u64>,
    marks: Vec<Mark>,
}

// It was held.
fn is_held(verdict: Verdict) -> bool
    ensures { result ≡ is_held verdict }
{
    match verdict {
        Verdict::Held(_) => true,
        _ => false,
    }
}

// The greater one.
fn greater(x: u64, y: u64) -> u64
    ensures { result ≡ greater x y }
{
    if x < y { y } else { x }
}

impl Ring {
    // Of which nothing is told.
    pub(crate) fn new(alloc: Global) -> Ring
        ensures { IsNew result }
    {
        Ring {
            pushes: 0,
            count: 0,
            held: BTreeMap::new(alloc),
            answered: BTreeMap::new(alloc),
            marks: Vec::new(alloc),
        }
    }

    // How many words were taken at the last mark before a tick. The search begins at the newest: what it passes was answered while the packet
    // that began at this tick was on its way, and the packets of a pipe follow one another, so it passes each mark once.
    fn marked_before(&self, tick: u64) -> u64
        ensures { result ≡ marked_before (reverse self.now.marks.items) tick }
    {
        self.marks
            .iter()
            .rev()
            .find(|mark| mark.is_before(tick))
            .map(|mark| mark.pushes)
            .unwrap_or(0)
    }

    // How many words it may have got since the last mark before a tick.
    pub(crate) fn words_since(&self, tick: u64) -> u64
        ensures { result ≡ self.now.pushes - marked_before (reverse self.now.marks.items) tick }
    {
        self.pushes.saturating_sub(self.marked_before(tick))
    }

    // A word more, of no opener that was held.
    fn push(&mut self)
        ensures { Pushed self.old self.new }
    {
        self.pushes = self.pushes.saturating_add(1);
    }

    // An opener more was held: if it was answered before, the words up to its own were taken then.
    #[tactic(auto, using(crate::proofs::Ringing::mark_more))]
    fn hold(&mut self) -> Result<(), AllocError>
        ensures { OnOk result (HoldsOne self.old self.new) }
    {
        self.push();
        self.count = self.count.saturating_add(1);
        self.held.insert(self.count, self.pushes)?;
        if let Some(out) = self.answered.get(&self.count).copied() {
            self.marks.push(Mark {
                out,
                pushes: self.pushes,
            })?;
        }
        Ok(())
    }

    // The nth held opener was answered at this tick, the latest of all.
    #[tactic(auto, using(crate::proofs::Ringing::mark_more))]
    fn answer(&mut self, nth: u64, out: u64) -> Result<(), AllocError>
        ensures { OnOk result (AnswersOne nth out self.old self.new) }
    {
        if self.answered.get(&nth).is_none() {
            self.answered.insert(nth, out)?;
        }
        if let Some(pushes) = self.held.get(&nth).copied() {
            let pushes = greater(self.marked_before(out), pushes);
            self.marks.push(Mark { out, pushes })?;
        }
        Ok(())
    }

    // One line more that it counts.
    pub(crate) fn absorb(&mut self, line: &Line) -> Result<(), AllocError>
        ensures { OnOk result ((pipe : ℕ) (before : List ALine) → counted_in line.now ≡ Some pipe
            → length before < u64.MAX → Falls (line.now ∷ before)
            → TellsRing pipe self.old before
            → TellsRing pipe self.new (line.now ∷ before)) }
    {
        match *line {
            Line::Packet { verdict, .. } => if is_held(verdict) {
                self.hold()
            } else {
                self.push();
                Ok(())
            },
            Line::Answer { nth, out, .. } => self.answer(nth as u64, out),
            _ => Ok(()),
        }
    }
}
