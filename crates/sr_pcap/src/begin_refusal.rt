ghost use Rattle.std.specs.Prelude.{◌≡◌};
ghost use Rattle.sr_pcap.specs.declared.begin_refusal.BeginRefusal.TheVariants as begin;

use sr_io::ReadFault;
use std::alloc::AllocError;
use thiserror::Error;

/// Why a capture can't be read from its header on.
#[derive(Clone, Copy, Debug, PartialEq, Eq, Error)]
pub enum BeginRefusal {
    /// The input ends inside the header.
    #[error("cut at {offset}")]
    Truncated {
        /// Where the header begins: 0.
        offset: u64,
    },
    /// The source failed.
    #[error("read fault")]
    ReadFault,
    /// The magic isn't that of a classic capture.
    #[error("magic")]
    Magic,
    /// The major version isn't 2.
    #[error("major")]
    Major,
    /// The link type is neither Ethernet nor raw IP.
    #[error("link type")]
    LinkType,
    /// No memory was found.
    #[error("no memory")]
    Memory,
}

impl From<AllocError> for BeginRefusal {
    ghost from_gives = { λ _ e. e ≡ begin.Memory };

    fn from(_: AllocError) -> BeginRefusal {
        BeginRefusal::Memory
    }
}

impl From<ReadFault> for BeginRefusal {
    ghost from_gives = { λ _ e. e ≡ begin.ReadFault };

    fn from(_: ReadFault) -> BeginRefusal {
        BeginRefusal::ReadFault
    }
}
