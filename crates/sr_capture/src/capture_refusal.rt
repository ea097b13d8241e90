use thiserror::Error;

/// Why a capture was refused.
#[derive(Clone, Copy, Debug, PartialEq, Eq, Error)]
pub enum CaptureRefusal {
    /// The input ends inside the header, record or block that begins at this offset.
    #[error("cut at {offset}")]
    Cut {
        /// In bytes from the capture's begin.
        offset: u64,
    },
    /// The record or block at this offset has more than 262,144 captured bytes.
    #[error("too long at {offset}")]
    TooLong {
        /// In bytes from the capture's begin.
        offset: u64,
    },
    /// A record begins at this offset after 4,194,304 whole ones, or a block is one too many.
    #[error("too many at {offset}")]
    TooMany {
        /// In bytes from the capture's begin.
        offset: u64,
    },
    /// The block at this offset breaks the format of pcapng.
    #[error("block at {offset}")]
    Block {
        /// In bytes from the capture's begin.
        offset: u64,
    },
    /// The magic is that of no capture, or of no section.
    #[error("magic")]
    Magic,
    /// The major version isn't that of the format.
    #[error("major")]
    Major,
    /// The link type of a classic capture is neither Ethernet nor raw IP.
    #[error("link type")]
    LinkType,
}
