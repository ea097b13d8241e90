ghost use Rattle.std.specs.Prelude.{◌≡◌};
ghost use Rattle.sr_text.specs.declared.log_refusal.LogRefusal.TheVariants as refusal;

use sr_io::ReadFault;
use std::alloc::AllocError;
use thiserror::Error;

/// Why a log can't be read.
#[derive(Clone, Copy, Debug, PartialEq, Eq, Error)]
pub enum LogRefusal {
    /// A line isn't one of the grammar, or follows 33,554,432 lines.
    #[error("line {number} is bad")]
    BadLine {
        /// The number of the first such line, from 1.
        number: u64,
    },
    /// The source failed.
    #[error("read fault")]
    ReadFault,
    /// No memory was found.
    #[error("no memory")]
    Memory,
}

impl From<AllocError> for LogRefusal {
    ghost from_gives = { λ _ e. e ≡ refusal.Memory };

    fn from(_: AllocError) -> LogRefusal {
        LogRefusal::Memory
    }
}

impl From<ReadFault> for LogRefusal {
    ghost from_gives = { λ _ e. e ≡ refusal.ReadFault };

    fn from(_: ReadFault) -> LogRefusal {
        LogRefusal::ReadFault
    }
}
