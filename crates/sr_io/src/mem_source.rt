ghost use Rattle.std.specs.Prelude.{◌≡◌, ℕ, ◌≤◌, ◌<◌, ◌++◌, List, length, take, drop, Option, Some};
ghost use Rattle.sr_io.specs.Faults.{Counts};
ghost use Rattle.sr_io.specs.MemSource.{mem_got_of, after_mem_read};
ghost use Rattle.sr_io.specs.Source.{IsWithin, Takes};
ghost use Rattle.sr_io.specs.SureSource.{count_of};
ghost use Rattle.sr_io.specs.declared.source.Got.TheVariants.{Failed};

use crate::calls::Calls;
use crate::{Got, Source, SureSource};
use std::marker::Model;

/// Bytes in memory as a source some calls of which fail.
#[derive(Drop)]
pub struct MemSource {
    source: SureSource,
    calls: Calls,
}

impl Model for MemSource {
    ghost use Rattle.sr_io.specs.MemSource.{MemSourceView};

    ghost Value = { MemSourceView };

    ghost view = { λ s. record { source = s.source; calls = s.calls } };
}

impl MemSource {
    /// These bytes, of which a read gives at most `piece`. The calls with the numbers `fails`, from 1, fail.
    pub fn new(bytes: Vec<u8>, piece: usize, fails: Vec<u64>) -> MemSource
        requires { 1 ≤ piece }
        ensures { result ≡ record { source = record { left = bytes.items; piece = piece }; calls = record { fails = fails.items; made = 0; faults = 0 } } }
    {
        MemSource {
            source: SureSource::new(bytes, piece),
            calls: Calls::new(fails),
        }
    }
}

impl Source for MemSource {
    ghost known = { λ s. record { left = Some s.source.left; faults = s.calls.faults } };

    fn read(&mut self, into: &mut [u8]) -> Got
        requires { 0 < length into.old }
        ensures within { IsWithin result (length into.new) }
        ensures bytes { Takes result self.old.source.left into.new (Some self.new.source.left) }
        ensures faults { Counts (result ≡ Failed) self.old.calls.faults self.new.calls.faults }
        ensures answer { result ≡ mem_got_of self.old (length into.old) }
        ensures after { self.new ≡ after_mem_read self.old result }
        ensures buffer { into.new ≡ take (count_of result) self.old.source.left ++ drop (count_of result) into.old }
    {
        if self.calls.fails_now() {
            return Got::Failed;
        }
        self.source.read(into)
    }
}
