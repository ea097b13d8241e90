ghost use Rattle.std.specs.Prelude.{◌≡◌, [], false, IfOk};
ghost use Rattle.sr_io.specs.Sink.{Adds};
ghost use Rattle.sr_io.specs.SureSink.{sure_known, told_of, after_write};
ghost use Rattle.sr_io.specs.declared.sink.Put.TheVariants.{All};

use crate::bounded_bytes::BoundedBytes;
use crate::{Put, Sink};
use std::alloc::{AllocError, Global};
use std::marker::Model;

/// A sink in memory that never fails. Once a write finds too little room it takes nothing more, and tells its bytes no longer.
#[derive(Drop)]
pub struct SureSink {
    taken: BoundedBytes,
    over: bool,
}

impl Model for SureSink {
    ghost use Rattle.sr_io.specs.SureSink.{SureSinkView};

    ghost Value = { SureSinkView };

    ghost view = { λ s. record { bytes = s.taken.bytes; room = s.taken.room; over = s.over } };
}

impl SureSink {
    /// Nothing was taken, and there is room for so many bytes.
    pub fn new(alloc: Global, room: usize) -> Result<SureSink, AllocError>
        ensures { IfOk result (λ s. s ≡ record { bytes = []; room = room; over = false }) }
    {
        let taken = BoundedBytes::new(alloc, room)?;
        Ok(SureSink { taken, over: false })
    }

    /// The bytes that were taken while there was room.
    pub fn bytes(&self) -> &[u8]
        ensures { result.now ≡ self.now.bytes }
    {
        self.taken.bytes()
    }
}

impl Sink for SureSink {
    ghost known = { sure_known };

    fn write(&mut self, bytes: &[u8]) -> Put
        ensures bytes { Adds (told_of self.old) (told_of self.new) bytes.now }
        ensures answer { result ≡ All }
        ensures after { self.new ≡ after_write self.old bytes.now }
    {
        if self.over {
            return Put::All;
        }
        if bytes.len() <= self.taken.left() {
            self.taken.put(bytes);
        } else {
            self.over = true;
        }
        Put::All
    }

    fn flush(&mut self) -> Put
        ensures answer { result ≡ All }
        ensures after { self.new ≡ self.old }
    {
        Put::All
    }
}
