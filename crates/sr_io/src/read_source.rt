ghost use Rattle.std.specs.Prelude.{◌≡◌, ◌<◌, ◌≤◌, length, None};
ghost use Rattle.std.specs.Option.{ForSome};
ghost use Rattle.std.specs.Io.{ReadsAtMost};
ghost use Rattle.std.specs.Io.KnownBytes.{ReadConsumes};
ghost use Rattle.sr_io.specs.Faults.{Counts};
ghost use Rattle.sr_io.specs.Source.{IsWithin, Takes};
ghost use Rattle.sr_io.specs.declared.source.Got.TheVariants.{Failed};

use crate::{Got, Source};
use std::io::{self, ErrorKind, Read};

// How often a read is tried that a signal cut short.
const TRIES: u32 = 16;

/// A reader of std as a source. As a source it tells nothing of its bytes; where the reader tells them, a read takes those.
#[derive(Drop)]
pub struct ReadSource<R> {
    reader: R,
    faults: u64,
}

impl<R: Read> ReadSource<R> {
    /// This reader; no fault yet.
    pub fn new(reader: R) -> ReadSource<R>
        ensures { result ≡ record { reader = reader; faults = 0 } }
    {
        ReadSource { reader, faults: 0 }
    }
}

// One read, tried again where a signal cut it short.
#[tactic(auto, using(crate::proofs::Kept::keeps_same, crate::proofs::Kept::keeps_then, crate::proofs::Kept::reads_then))]
fn read_retried<R: Read>(reader: &mut R, into: &mut [u8]) -> io::Result<usize>
    ensures bound { ReadsAtMost result into.new }
    ensures bytes { ReadConsumes (R.remaining reader.old) (R.remaining reader.new) result into.new }
{
    for _ in 1..TRIES {
        match reader.read(into) {
            Ok(n) => return Ok(n),
            Err(e) => {
                if e.kind() != ErrorKind::Interrupted {
                    return Err(e);
                }
            }
        }
    }
    reader.read(into)
}

impl<R: Read> Source for ReadSource<R> {
    ghost known = { λ s. record { left = None; faults = s.faults } };

    fn read(&mut self, into: &mut [u8]) -> Got
        requires { 0 < length into.old }
        ensures within { IsWithin result (length into.new) }
        ensures faults { Counts (result ≡ Failed) self.old.faults self.new.faults }
        ensures reader { ForSome (R.remaining self.old.reader) (λ xs. Takes result xs into.new (R.remaining self.new.reader)) }
    {
        match read_retried(&mut self.reader, into) {
            Ok(0) => Got::End,
            Ok(n) => Got::Bytes(n),
            Err(_) => {
                self.faults = self.faults.saturating_add(1);
                Got::Failed
            }
        }
    }
}
