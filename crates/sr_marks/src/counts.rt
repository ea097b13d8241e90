ghost use Rattle.std.specs.Prelude.{◌≡◌, ◌+◌, ◌-◌, ◌^◌, ◌<◌, ◌≤◌, [], length, slice_index, slice_set, IfOk};
ghost use Rattle.sr_marks.specs.Counts.{total, total_before};
ghost use Rattle.sr_marks.specs.Words.{AreWordCounts};

use crate::flags::Flags;
use crate::level::Level;
use std::alloc::{AllocError, Global};
use std::marker::Model;

/// A list of counts that tells the sum before a position, and the position that a sum reaches, in logarithmic time. Above the
/// list are the sums of its groups of 64, above these the sums of theirs, and so on, until one sum is left.
#[derive(Debug, Drop)]
pub struct Counts {
    // The list itself first; none at all for an empty list that took no memory.
    levels: Vec<Level>,
}

impl Model for Counts {
    ghost use Rattle.std.specs.Prelude.{List, ℕ};

    ghost Value = { List ℕ };

    ghost use Rattle.sr_marks.specs.Counts.{AreLevels, lowest};

    ghost view = { λ c. lowest c.levels.items };

    ghost invariant = { λ c. AreLevels c.levels.items (lowest c.levels.items) };
}

impl Counts {
    /// No count. It takes no memory.
    pub fn new(alloc: Global) -> Counts
        ensures { result ≡ [] }
    {
        Counts {
            levels: Vec::new(alloc),
        }
    }

    /// How many marks of each word are set.
    pub fn of(alloc: Global, flags: &Flags) -> Result<Counts, AllocError>
        requires short { length flags.now < 2 ^ 32 }
        ensures { IfOk result (λ c. AreWordCounts c flags.now) }
    {
        let lowest = Level::of(alloc, flags)?;
        Counts::over(alloc, lowest)
    }

    /// The counts of this level, with the levels of sums above it.
    pub fn over(alloc: Global, lowest: Level) -> Result<Counts, AllocError>
        requires { total lowest < 2 ^ 32 }
        ensures { IfOk result (λ c. c ≡ lowest) }
    {
        let mut levels = Vec::new(alloc);
        let mut level = lowest;
        while level.len() > 1 {
            let above = level.grouped(alloc)?;
            levels.push(level)?;
            level = above;
        }
        levels.push(level)?;
        Ok(Counts { levels })
    }

    /// How many counts there are.
    pub fn len(&self) -> usize
        ensures { result ≡ length self.now }
    {
        match self.levels.first() {
            Some(lowest) => lowest.len(),
            None => 0,
        }
    }

    /// The sum of the counts before this position.
    pub fn before(&self, at: usize) -> u32
        requires within { at < length self.now }
        requires fits { total self.now < 2 ^ 32 }
        ensures { result ≡ total_before at self.now }
    {
        let mut at = at;
        let mut sum = 0;
        for level in &self.levels {
            sum += level.sum_between(at - at % 64, at);
            at /= 64;
        }
        sum
    }

    /// The position whose count takes the sum past `n`.
    pub fn find(&self, n: u32) -> usize
        requires within { n < total self.now }
        requires short { length self.now < 2 ^ 32 }
        ensures before { total_before result self.now ≤ n }
        ensures past { n < total_before result self.now + slice_index self.now result }
    {
        let mut at = 0;
        let mut rest = n;
        for i in (0..self.levels.len()).rev() {
            let found = self.levels[i].find_from(64 * at, rest);
            at = found.0;
            rest = found.1;
        }
        at
    }

    /// One more at this position.
    pub fn raise(&mut self, at: usize)
        requires within { at < length self.old }
        requires fits { total self.old + 1 < 2 ^ 32 }
        ensures { self.new ≡ slice_set self.old at (slice_index self.old at + 1) }
    {
        let mut at = at;
        for i in 0..self.levels.len() {
            self.levels[i].raise(at);
            at /= 64;
        }
    }

    /// One less at this position.
    pub fn lower(&mut self, at: usize)
        requires within { at < length self.old }
        requires some { 0 < slice_index self.old at }
        ensures { self.new ≡ slice_set self.old at (slice_index self.old at - 1) }
    {
        let mut at = at;
        for i in 0..self.levels.len() {
            self.levels[i].lower(at);
            at /= 64;
        }
    }
}
