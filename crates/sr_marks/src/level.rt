ghost use Rattle.std.specs.Prelude.{◌≡◌, ◌+◌, ◌-◌, ◌^◌, ◌<◌, ◌≤◌, length, slice_index, slice_set, IfOk};
ghost use Rattle.sr_marks.specs.Counts.{total, total_before, groups};
ghost use Rattle.sr_marks.specs.Words.{AreWordCounts};

use crate::flags::Flags;
use std::alloc::{AllocError, Global};
use std::marker::Model;

/// The counts of one level.
#[derive(Debug, Drop)]
pub struct Level {
    counts: Vec<u32>,
}

impl Model for Level {
    ghost use Rattle.std.specs.Prelude.{List, ℕ};

    ghost Value = { List ℕ };

    ghost view = { λ l. l.counts.items };
}

impl Level {
    /// How many marks of each word are set.
    pub fn of(alloc: Global, flags: &Flags) -> Result<Level, AllocError>
        ensures { IfOk result (λ l. AreWordCounts l flags.now) }
    {
        let words = flags.words();
        let mut counts = Vec::with_capacity(alloc, words)?;
        for word in 0..words {
            counts.push(flags.count_in(word))?;
        }
        Ok(Level { counts })
    }

    /// The sums of groups of 64.
    pub fn grouped(&self, alloc: Global) -> Result<Level, AllocError>
        requires { total self.now < 2 ^ 32 }
        ensures { IfOk result (λ l. l ≡ groups self.now) }
    {
        let groups = self.len().div_ceil(64);
        let mut counts = Vec::with_capacity(alloc, groups)?;
        for group in 0..groups {
            let start = 64 * group;
            let end = start + (self.len() - start).min(64);
            counts.push(self.sum_between(start, end))?;
        }
        Ok(Level { counts })
    }

    /// The sum of the counts from a position on, before another.
    pub fn sum_between(&self, from: usize, to: usize) -> u32
        requires order { from ≤ to }
        requires within { to ≤ length self.now }
        requires fits { total self.now < 2 ^ 32 }
        ensures { total_before from self.now + result ≡ total_before to self.now }
    {
        let mut sum = 0;
        for at in from..to {
            sum += self.counts[at];
        }
        sum
    }

    /// The position, this one or a later one, whose count takes the sum from here past `n`, and how much of `n` is left
    /// before it.
    pub fn find_from(&self, from: usize, n: u32) -> (usize, u32)
        requires within { total_before from self.now + n < total self.now }
        ensures so_far { total_before result.0 self.now + result.1 ≡ total_before from self.now + n }
        ensures inside { result.1 < slice_index self.now result.0 }
    {
        let mut left = n;
        for at in from..self.len() {
            let count = self.counts[at];
            if left < count {
                return (at, left);
            }
            left -= count;
        }
        unreachable!()
    }

    /// How many counts there are.
    pub fn len(&self) -> usize
        ensures { result ≡ length self.now }
    {
        self.counts.len()
    }

    /// One more at this position.
    pub fn raise(&mut self, at: usize)
        requires within { at < length self.old }
        requires fits { slice_index self.old at + 1 < 2 ^ 32 }
        ensures { self.new ≡ slice_set self.old at (slice_index self.old at + 1) }
    {
        self.counts[at] += 1;
    }

    /// One less at this position.
    pub fn lower(&mut self, at: usize)
        requires within { at < length self.old }
        requires some { 0 < slice_index self.old at }
        ensures { self.new ≡ slice_set self.old at (slice_index self.old at - 1) }
    {
        self.counts[at] -= 1;
    }
}
