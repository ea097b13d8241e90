ghost use Rattle.std.specs.Prelude.{◌≡◌, ◌+◌, ◌-◌, ◌*◌, ◌/◌, ◌%◌, ◌^◌, ◌<◌, ◌≤◌, ℕ, [], ◌++◌, Some, false, length, take, replicate, get_or, slice_set, slice_index_or, IfOk};
ghost use Rattle.sr_marks.specs.Marks.{count_set, nth_set, next_set};
ghost use Rattle.sr_marks.specs.Words.{word_of, AreSummed, IsSummary};

use crate::flags::Flags;
use std::alloc::{AllocError, Global};
use std::marker::Model;

/// Marks, of which the next set one is found by tiers above them: a mark of a tier says whether some mark of a word of the
/// tier below is set.
#[derive(Debug, Drop)]
pub struct Tiers {
    // The marks themselves first; none at all where there is no mark and no memory was taken.
    tiers: Vec<Flags>,
}

impl Model for Tiers {
    ghost use Rattle.std.specs.Prelude.{List, Bool};

    ghost Value = { List Bool };

    ghost use Rattle.sr_marks.specs.Words.{AreSummed, lowest_of};

    ghost view = { λ t. lowest_of t.tiers.items };

    ghost invariant = { λ t. AreSummed 0 t.tiers.items };
}

impl Tiers {
    /// No mark. It takes no memory.
    pub fn new(alloc: Global) -> Tiers
        ensures { result ≡ [] }
    {
        Tiers {
            tiers: Vec::new(alloc),
        }
    }

    /// These marks, with the tiers above them.
    pub fn over(alloc: Global, lowest: Flags) -> Result<Tiers, AllocError>
        ensures { IfOk result (λ t. t ≡ lowest) }
    {
        let mut tiers = Vec::new(alloc);
        let mut tier = lowest;
        while tier.words() > 1 {
            let above = summary(alloc, &tier)?;
            tiers.push(tier)?;
            tier = above;
        }
        tiers.push(tier)?;
        Ok(Tiers { tiers })
    }

    /// How many marks there are.
    pub fn len(&self) -> usize
        ensures { result ≡ length self.now }
    {
        match self.tiers.first() {
            Some(lowest) => lowest.len(),
            None => 0,
        }
    }

    /// These marks, and unset ones up to so many words.
    pub fn grown(&self, alloc: Global, words: usize) -> Result<Flags, AllocError>
        requires more { length self.now ≤ 64 * words }
        requires short { words < 2 ^ 32 }
        ensures { IfOk result (λ f. f ≡ self.now ++ replicate (64 * words - length self.now) false) }
    {
        match self.tiers.first() {
            Some(lowest) => lowest.grown(alloc, words),
            None => Flags::unset(alloc, words),
        }
    }

    /// Whether the mark at this position is set.
    pub fn get(&self, at: usize) -> bool
        requires { at < length self.now }
        ensures { result ≡ slice_index_or self.now at false }
    {
        self.tiers[0].get(at)
    }

    /// How many marks are set before this position, in its word.
    pub fn count_before(&self, at: usize) -> u32
        requires { at < length self.now }
        ensures { result ≡ count_set (take (at % 64) (word_of (at / 64) self.now)) }
    {
        self.tiers[0].count_before(at)
    }

    /// Where in this word its n-th set mark is, from 0.
    pub fn nth_in_word(&self, word: usize, n: u32) -> usize
        requires within { 64 * word < length self.now }
        requires some { n < count_set (word_of word self.now) }
        ensures value { nth_set n (word_of word self.now) ≡ Some result }
        ensures inside { result < 64 }
    {
        self.tiers[0].nth_in_word(word, n)
    }

    /// Sets the mark at this position, or takes it away.
    pub fn put(&mut self, at: usize, mark: bool)
        requires { at < length self.old }
        ensures { self.new ≡ slice_set self.old at mark }
    {
        put_from(&mut self.tiers, 0, at, mark);
    }

    /// The first position of a set mark that is at least this one.
    pub fn next(&self, from: usize) -> Option<usize>
        ensures { result ≡ next_set from self.now }
    {
        if self.tiers.is_empty() {
            None
        } else {
            next_from(&self.tiers, 0, from)
        }
    }
}

// The tier above.
fn summary(alloc: Global, below: &Flags) -> Result<Flags, AllocError>
    ensures { IfOk result (λ above. IsSummary above below.now × (64 * length above < length below.now + 64 * 64)) }
{
    let words = below.words();
    let mut above = Flags::unset(alloc, words.div_ceil(64))?;
    for word in 0..words {
        above.put(word, below.some_in(word));
    }
    Ok(above)
}

// The first position of a set mark of a tier that is at least this one.
fn next_from(tiers: &Vec<Flags>, i: usize, from: usize) -> Option<usize>
    requires summed { AreSummed 0 tiers.now.items }
    requires within { i < length tiers.now.items }
    ensures { result ≡ next_set from (get_or tiers.now.items i []) }
{
    let tier = &tiers[i];
    if from >= tier.len() {
        return None;
    }
    if let Some(at) = tier.next_in_word(from) {
        return Some(at);
    }
    if i + 1 == tiers.len() {
        return None;
    }
    match next_from(tiers, i + 1, from / 64 + 1) {
        Some(word) => tier.next_in_word(64 * word),
        None => None,
    }
}

// Sets a mark of a tier, or takes it away, and then those above it that tell of it.
fn put_from(tiers: &mut Vec<Flags>, i: usize, at: usize, mark: bool)
    requires summed { AreSummed i tiers.old.items }
    requires tier { i < length tiers.old.items }
    requires within { at < length (get_or tiers.old.items i []) }
    ensures summed { AreSummed i tiers.new.items }
    ensures written { get_or tiers.new.items i [] ≡ slice_set (get_or tiers.old.items i []) at mark }
    ensures others { (j : ℕ) → j < i → get_or tiers.new.items j [] ≡ get_or tiers.old.items j [] }
    ensures long { length tiers.new.items ≡ length tiers.old.items }
{
    let word = at / 64;
    tiers[i].put(at, mark);
    let some = tiers[i].some_in(word);
    if i + 1 < tiers.len() && tiers[i + 1].get(word) != some {
        put_from(tiers, i + 1, word, some);
    }
}
