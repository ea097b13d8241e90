ghost use Rattle.std.specs.Prelude.{◌≡◌, ◌≤◌, None};
ghost use Rattle.std.specs.Io.KnownBytes.{Appends, Keeps};
ghost use Rattle.sr_io.specs.Faults.{Counts};
ghost use Rattle.sr_io.specs.declared.sink.Put.TheVariants.{All, Failed};

use crate::{Put, Sink};
use std::io::Write;

/// A writer of std as a sink. As a sink it tells nothing of its bytes; where the writer tells them, All says that it has these too.
#[derive(Drop)]
pub struct WriteSink<W> {
    writer: W,
    faults: u64,
}

impl<W: Write> WriteSink<W> {
    /// This writer; no fault yet.
    pub fn new(writer: W) -> WriteSink<W>
        ensures { result ≡ record { writer = writer; faults = 0 } }
    {
        WriteSink { writer, faults: 0 }
    }
}

impl<W: Write> Sink for WriteSink<W> {
    ghost known = { λ s. record { taken = None; faults = s.faults } };

    fn write(&mut self, bytes: &[u8]) -> Put
        ensures faults { Counts (result ≡ Failed) self.old.faults self.new.faults }
        ensures writer { result ≡ All → Appends (W.contents self.old.writer) (W.contents self.new.writer) bytes.now }
    {
        match self.writer.write_all(bytes) {
            Ok(()) => Put::All,
            Err(_) => {
                self.faults = self.faults.saturating_add(1);
                Put::Failed
            }
        }
    }

    fn flush(&mut self) -> Put
        ensures faults { Counts (result ≡ Failed) self.old.faults self.new.faults }
        ensures writer { Keeps (W.contents self.old.writer) (W.contents self.new.writer) }
    {
        match self.writer.flush() {
            Ok(()) => Put::All,
            Err(_) => {
                self.faults = self.faults.saturating_add(1);
                Put::Failed
            }
        }
    }
}
