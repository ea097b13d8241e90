ghost use Rattle.std.specs.Prelude.{◌≡◌, ◌+◌, ◌-◌, ◌*◌, ◌/◌, ◌%◌, ◌^◌, ◌<◌, ◌≤◌, [], ◌++◌, Some, false, length, take, slice_set, slice_index_or, replicate, IfOk};
ghost use Rattle.sr_marks.specs.Marks.{count_set, nth_set, next_set};
ghost use Rattle.sr_marks.specs.Words.{word_of, some_in, up_to_word_end};

use crate::word;
use std::alloc::{AllocError, Global};
use std::marker::Model;

/// Marks in words of 64.
#[derive(Debug, Drop)]
pub struct Flags {
    words: Vec<u64>,
}

impl Model for Flags {
    ghost use Rattle.std.specs.Prelude.{List, Bool, length, ◌^◌, ◌<◌};
    ghost use Rattle.sr_marks.specs.Words.{bits_in};

    ghost Value = { List Bool };

    ghost view = { λ f. bits_in f.words.items };

    ghost invariant = { λ f. length f.words.items < 2 ^ 32 };
}

impl Flags {
    /// So many words without a mark.
    pub fn unset(alloc: Global, words: usize) -> Result<Flags, AllocError>
        requires short { words < 2 ^ 32 }
        ensures { IfOk result (λ f. f ≡ replicate (64 * words) false) }
    {
        let mut unset = Vec::with_capacity(alloc, words)?;
        unset.resize(words, 0)?;
        Ok(Flags { words: unset })
    }

    /// These marks, and unset ones up to so many words.
    pub fn grown(&self, alloc: Global, words: usize) -> Result<Flags, AllocError>
        requires more { length self.now ≤ 64 * words }
        requires short { words < 2 ^ 32 }
        ensures { IfOk result (λ f. f ≡ self.now ++ replicate (64 * words - length self.now) false) }
    {
        let mut grown = Vec::with_capacity(alloc, words)?;
        grown.extend_from_slice(self.words.as_slice())?;
        grown.resize(words, 0)?;
        Ok(Flags { words: grown })
    }

    /// How many marks there are.
    pub fn len(&self) -> usize
        ensures { result ≡ length self.now }
    {
        64 * self.words.len()
    }

    /// How many words there are.
    pub fn words(&self) -> usize
        ensures all { 64 * result ≡ length self.now }
        ensures short { result < 2 ^ 32 }
    {
        self.words.len()
    }

    /// Whether the mark at this position is set.
    pub fn get(&self, at: usize) -> bool
        requires { at < length self.now }
        ensures { result ≡ slice_index_or self.now at false }
    {
        word::has_bit(self.words[at / 64], at % 64)
    }

    /// Sets the mark at this position, or takes it away.
    pub fn put(&mut self, at: usize, mark: bool)
        requires { at < length self.old }
        ensures { self.new ≡ slice_set self.old at mark }
    {
        let word = self.words[at / 64];
        self.words[at / 64] = word::with_bit(word, at % 64, mark);
    }

    /// Whether some mark of this word is set.
    pub fn some_in(&self, word: usize) -> bool
        requires { 64 * word < length self.now }
        ensures { result ≡ some_in word self.now }
    {
        word::is_some(self.words[word])
    }

    /// How many marks of this word are set.
    pub fn count_in(&self, word: usize) -> u32
        requires { 64 * word < length self.now }
        ensures { result ≡ count_set (word_of word self.now) }
    {
        word::count(self.words[word])
    }

    /// How many marks are set before this position, in its word.
    pub fn count_before(&self, at: usize) -> u32
        requires { at < length self.now }
        ensures { result ≡ count_set (take (at % 64) (word_of (at / 64) self.now)) }
    {
        word::count_below(self.words[at / 64], at % 64)
    }

    /// The first position of a set mark that is at least this one, up to the end of its word.
    pub fn next_in_word(&self, from: usize) -> Option<usize>
        requires { from < length self.now }
        ensures { result ≡ next_set from (up_to_word_end from self.now) }
    {
        match word::next_bit(self.words[from / 64], from % 64) {
            Some(bit) => Some(from / 64 * 64 + bit),
            None => None,
        }
    }

    /// Where in this word its n-th set mark is, from 0.
    pub fn nth_in_word(&self, word: usize, n: u32) -> usize
        requires within { 64 * word < length self.now }
        requires some { n < count_set (word_of word self.now) }
        ensures value { nth_set n (word_of word self.now) ≡ Some result }
        ensures inside { result < 64 }
    {
        word::nth_bit(self.words[word], n)
    }
}
