ghost use Rattle.std.specs.Prelude.{◌≡◌, ◌+◌, ◌<◌, ◌≤◌, [], ◌∷◌, ◌++◌, length, slice_set, slice_index_or, false, IfOk, OnOk, IfSome, IsOk};
ghost use Rattle.sr_marks.specs.Marks.{count_set, nth_set, next_set, rank_of};

use crate::counts::Counts;
use crate::tiers::Tiers;
use std::alloc::{AllocError, Global};
use std::marker::Model;

// The greatest number of marks, whole words of them; with it no count passes a u32.
const MOST_MARKS: usize = 0xffff_ffc0;

/// A growing list of marks. Its calls take logarithmic time, but for those that take memory.
#[derive(Debug, Drop)]
pub struct Marks {
    // The marks, and unset ones where marks can still be pushed.
    tiers: Tiers,
    // How many marks of each word are set.
    counts: Counts,
    // How many are pushed.
    pushed: usize,
    // How many are set.
    set: usize,
}

impl Model for Marks {
    ghost use Rattle.std.specs.Prelude.{◌-◌, length, take};
    ghost use Rattle.sr_marks.specs.Marks.{MarksView};
    ghost use Rattle.sr_marks.specs.Words.{AreKept};

    ghost Value = { MarksView };

    ghost view = { λ m. record { marks = take m.pushed m.tiers; room = length m.tiers - m.pushed } };

    ghost invariant = { λ m. AreKept m.tiers m.pushed m.counts m.set };
}

impl Marks {
    /// No mark. It takes no memory.
    pub fn new(alloc: Global) -> Marks
        ensures { result.marks ≡ [] }
    {
        Marks {
            tiers: Tiers::new(alloc),
            counts: Counts::new(alloc),
            pushed: 0,
            set: 0,
        }
    }

    /// Makes room for at least so many more marks. The Err comes for want of memory, and for more than 2^32 - 64 marks.
    pub fn reserve(&mut self, alloc: Global, additional: usize) -> Result<(), AllocError>
        ensures marks { self.new.marks ≡ self.old.marks }
        ensures more { self.old.room ≤ self.new.room }
        ensures room { OnOk result (additional ≤ self.new.room) }
        ensures succeeds { additional ≤ self.old.room → IsOk result }
    {
        if additional <= self.tiers.len() - self.pushed {
            return Ok(());
        }
        if additional > MOST_MARKS - self.pushed {
            return Err(AllocError);
        }
        let capacity = (2 * self.pushed)
            .min(MOST_MARKS)
            .max(self.pushed + additional);
        let flags = self.tiers.grown(alloc, capacity.div_ceil(64))?;
        let counts = Counts::of(alloc, &flags)?;
        self.tiers = Tiers::over(alloc, flags)?;
        self.counts = counts;
        Ok(())
    }

    /// Puts a mark at the end. It takes no memory.
    pub fn push(&mut self, mark: bool)
        requires { 0 < self.old.room }
        ensures marks { self.new.marks ≡ self.old.marks ++ mark ∷ [] }
        ensures room { self.new.room + 1 ≡ self.old.room }
    {
        let at = self.pushed;
        self.pushed += 1;
        if mark {
            self.tiers.put(at, true);
            self.counts.raise(at / 64);
            self.set += 1;
        }
    }

    /// Sets the mark at this position, or takes it away.
    pub fn set(&mut self, at: usize, mark: bool)
        requires { at < length self.old.marks }
        ensures marks { self.new.marks ≡ slice_set self.old.marks at mark }
        ensures room { self.new.room ≡ self.old.room }
    {
        if self.tiers.get(at) == mark {
            return;
        }
        self.tiers.put(at, mark);
        if mark {
            self.counts.raise(at / 64);
            self.set += 1;
        } else {
            self.counts.lower(at / 64);
            self.set -= 1;
        }
    }

    /// Whether the mark at this position is set.
    pub fn get(&self, at: usize) -> bool
        requires { at < length self.now.marks }
        ensures { result ≡ slice_index_or self.now.marks at false }
    {
        self.tiers.get(at)
    }

    /// How many marks there are.
    pub fn len(&self) -> usize
        ensures { result ≡ length self.now.marks }
    {
        self.pushed
    }

    /// How many are set.
    pub fn count(&self) -> usize
        ensures { result ≡ count_set self.now.marks }
    {
        self.set
    }

    /// How many are set before this position.
    pub fn before(&self, at: usize) -> usize
        ensures { result ≡ rank_of at self.now.marks }
    {
        if at < self.tiers.len() {
            self.counts.before(at / 64) as usize + self.tiers.count_before(at) as usize
        } else {
            self.set
        }
    }

    /// The position of the n-th set mark, from 0. None where no more than n are set.
    pub fn nth(&self, n: usize) -> Option<usize>
        ensures value { result ≡ nth_set n self.now.marks }
        ensures within { IfSome result (λ at. at < length self.now.marks) }
    {
        if n < self.set {
            let word = self.counts.find(n as u32);
            let rest = n as u32 - self.counts.before(word);
            Some(64 * word + self.tiers.nth_in_word(word, rest))
        } else {
            None
        }
    }

    /// The first position of a set mark that is at least this one. None where there is none.
    pub fn next(&self, from: usize) -> Option<usize>
        ensures value { result ≡ next_set from self.now.marks }
        ensures within { IfSome result (λ at. at < length self.now.marks) }
    {
        self.tiers.next(from)
    }
}
