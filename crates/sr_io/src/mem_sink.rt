ghost use Rattle.std.specs.Prelude.{◌≡◌, ◌≤◌, [], Some, IfOk};
ghost use Rattle.sr_io.specs.MemSink.{known_of, write_of, after_mem_write, flush_of, after_flush};
ghost use Rattle.sr_io.specs.Sink.{Writes};
ghost use Rattle.sr_io.specs.declared.sink.Put.TheVariants.{Failed};

use crate::bounded_bytes::BoundedBytes;
use crate::calls::Calls;
use crate::{Put, Sink};
use std::alloc::{AllocError, Global};
use std::marker::Model;

/// A sink in memory some calls of which fail. Writes and flushes are numbered together.
#[derive(Drop)]
pub struct MemSink {
    taken: BoundedBytes,
    calls: Calls,
}

impl Model for MemSink {
    ghost use Rattle.sr_io.specs.MemSink.{MemSinkView};

    ghost Value = { MemSinkView };

    ghost view = { λ s. record { bytes = s.taken.bytes; room = s.taken.room; calls = s.calls } };
}

impl MemSink {
    /// Nothing was taken, and there is room for so many bytes. The calls with the numbers `fails`, from 1, fail.
    pub fn new(alloc: Global, room: usize, fails: Vec<u64>) -> Result<MemSink, AllocError>
        ensures { IfOk result (λ s. s ≡ record { bytes = []; room = room; calls = record { fails = fails.items; made = 0; faults = 0 } }) }
    {
        let taken = BoundedBytes::new(alloc, room)?;
        let calls = Calls::new(fails);
        Ok(MemSink { taken, calls })
    }

    /// The bytes that were taken.
    pub fn bytes(&self) -> &[u8]
        ensures { result.now ≡ self.now.bytes }
    {
        self.taken.bytes()
    }
}

impl Sink for MemSink {
    ghost known = { known_of };

    fn write(&mut self, bytes: &[u8]) -> Put
        ensures written { Writes result (known_of self.old) (known_of self.new) bytes.now }
        ensures answer { result ≡ write_of self.old bytes.now }
        ensures after { self.new ≡ after_mem_write self.old bytes.now result }
    {
        let left = self.taken.left();
        if self.calls.fails_now() {
            self.taken.put(&bytes[..(bytes.len() / 2).min(left)]);
            return Put::Failed;
        }
        self.taken.put(&bytes[..bytes.len().min(left)]);
        if bytes.len() <= left {
            return Put::All;
        }
        self.calls.fault();
        Put::Failed
    }

    fn flush(&mut self) -> Put
        ensures written { Writes result (known_of self.old) (known_of self.new) [] }
        ensures answer { result ≡ flush_of self.old }
        ensures after { self.new ≡ after_flush self.old result }
    {
        let fails = self.calls.fails_now();
        if fails { Put::Failed } else { Put::All }
    }
}
