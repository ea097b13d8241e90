ghost use Rattle.std.specs.Prelude.{◌≡◌, ℕ, ◌+◌, ◌^◌, ◌≤◌, ◌<◌, List, [], ◌∷◌, ◌++◌, length, drop};
ghost use Rattle.std.specs.Fmt.{decimal};

use itoa::write_digits;
use std::marker::Model;

/// The greatest number of bytes of a line, its line feed included.
pub(crate) const LINE_BYTES: usize = 200;

/// A line that is put together from its end to its front: each call puts something before what is there.
#[derive(Drop)]
pub struct LineText {
    bytes: [u8; LINE_BYTES],
    at: usize,
}

impl Model for LineText {
    ghost Value = { List ℕ };

    ghost view = { λ t. drop t.at t.bytes };

    ghost invariant = { λ t. t.at ≤ 200 };
}

impl LineText {
    /// The end of a line: its line feed.
    pub fn new() -> LineText
        ensures { result ≡ 10 ∷ [] }
    {
        LineText {
            bytes: [b'\n'; LINE_BYTES],
            at: LINE_BYTES - 1,
        }
    }

    /// All of it.
    pub fn bytes(&self) -> &[u8]
        ensures { result.now ≡ self.now }
    {
        &self.bytes[self.at..]
    }

    /// Puts one byte before it.
    pub fn byte(&mut self, byte: u8)
        requires { 1 + length self.old ≤ 200 }
        ensures text { self.new ≡ byte ∷ self.old }
        ensures length { length self.new ≡ 1 + length self.old }
    {
        self.at -= 1;
        self.bytes[self.at] = byte;
    }

    /// Puts a word before it.
    pub fn word(&mut self, word: &[u8])
        requires { length word.now + length self.old ≤ 200 }
        ensures text { self.new ≡ word.now ++ self.old }
        ensures length { length self.new ≡ length word.now + length self.old }
    {
        let end = self.at;
        self.at -= word.len();
        self.bytes[self.at..end].copy_from_slice(word);
    }

    /// Puts a number's digits before it: twenty at most.
    pub fn put_u64(&mut self, n: u64)
        requires { 20 + length self.old ≤ 200 }
        ensures text { self.new ≡ decimal n ++ self.old }
        ensures length { length self.new ≤ 20 + length self.old }
    {
        self.digits(n, 20);
    }

    /// Puts the digits of a number below 2^32 before it: ten at most.
    pub fn put_u32(&mut self, n: u32)
        requires { 10 + length self.old ≤ 200 }
        ensures text { self.new ≡ decimal n ++ self.old }
        ensures length { length self.new ≤ 10 + length self.old }
    {
        self.digits(n as u64, 10);
    }

    /// Puts the digits of a number below 2^16 before it: five at most.
    pub fn put_u16(&mut self, n: u16)
        requires { 5 + length self.old ≤ 200 }
        ensures text { self.new ≡ decimal n ++ self.old }
        ensures length { length self.new ≤ 5 + length self.old }
    {
        self.digits(n as u64, 5);
    }

    // Puts a number before it that has no more digits than this.
    fn digits(&mut self, n: u64, most: usize)
        requires digits { length (decimal n) ≤ most }
        requires room { most + length self.old ≤ 200 }
        ensures text { self.new ≡ decimal n ++ self.old }
        ensures length { length self.new ≤ most + length self.old }
    {
        self.at = write_digits(n, &mut self.bytes, self.at);
    }
}
