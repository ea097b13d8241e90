ghost use Rattle.std.specs.Prelude.{◌≡◌, []};
ghost use Rattle.sr_io.specs.Sink.{SinkKnown, Writes, put_of};

use crate::WriteFault;

/// What a write or a flush answers.
#[derive(Clone, Copy, Debug, PartialEq, Eq)]
pub enum Put {
    /// All the bytes were taken.
    All,
    /// The device failed; a prefix of the bytes was taken.
    Failed,
}

impl Put {
    /// The answer as a result, for `?`.
    pub fn ok(self) -> Result<(), WriteFault>
        ensures { put_of result ≡ self }
    {
        match self {
            Put::All => Ok(()),
            Put::Failed => Err(WriteFault),
        }
    }
}

/// Where printed bytes go.
pub trait Sink {
    /// The bytes taken so far, where the sink tells them, and how often it failed.
    ghost known: { Self → SinkKnown };

    /// Takes all the bytes, or fails after a prefix of them.
    fn write(&mut self, bytes: &[u8]) -> Put
        ensures { Writes result (known self.old) (known self.new) bytes.now };

    /// Sends on what was taken. It takes nothing.
    fn flush(&mut self) -> Put
        ensures { Writes result (known self.old) (known self.new) [] };
}
