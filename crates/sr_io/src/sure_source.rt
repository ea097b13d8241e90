ghost use Rattle.std.specs.Prelude.{◌≡◌, ℕ, ◌≤◌, ◌<◌, ◌++◌, List, length, take, drop, Option, Some};
ghost use Rattle.sr_io.specs.Faults.{Rose};
ghost use Rattle.sr_io.specs.Source.{IsWithin, Takes};
ghost use Rattle.sr_io.specs.SureSource.{got_of, count_of, after_read};
ghost use Rattle.sr_io.specs.declared.source.Got.TheVariants.{Failed};

use crate::{Got, Source};
use std::marker::Model;

/// Bytes in memory as a source that never fails.
#[derive(Drop)]
pub struct SureSource {
    bytes: Vec<u8>,
    at: usize,
    piece: usize,
}

impl Model for SureSource {
    ghost use Rattle.std.specs.Prelude.{◌≤◌, drop, vec_len};
    ghost use Rattle.sr_io.specs.SureSource.{SureSourceView};

    ghost Value = { SureSourceView };

    ghost view = { λ s. record { left = drop s.at s.bytes.items; piece = s.piece } };

    ghost invariant = { λ s. (s.at ≤ vec_len s.bytes) × (1 ≤ s.piece) };
}

impl SureSource {
    /// These bytes, of which a read gives at most `piece`.
    pub fn new(bytes: Vec<u8>, piece: usize) -> SureSource
        requires { 1 ≤ piece }
        ensures { result ≡ record { left = bytes.items; piece = piece } }
    {
        SureSource {
            bytes,
            at: 0,
            piece,
        }
    }
}

impl Source for SureSource {
    ghost known = { λ s. record { left = Some s.left; faults = 0 } };

    fn read(&mut self, into: &mut [u8]) -> Got
        requires { 0 < length into.old }
        ensures within { IsWithin result (length into.new) }
        ensures bytes { Takes result self.old.left into.new (Some self.new.left) }
        ensures answer { result ≡ got_of self.old (length into.old) }
        ensures after { self.new ≡ after_read self.old result }
        ensures buffer { into.new ≡ take (count_of result) self.old.left ++ drop (count_of result) into.old }
    {
        let left = &self.bytes[self.at..];
        if left.is_empty() {
            return Got::End;
        }
        let n = self.piece.min(into.len().min(left.len()));
        into[..n].copy_from_slice(&left[..n]);
        self.at += n;
        Got::Bytes(n)
    }
}
