ghost use Rattle.std.specs.Prelude.{◌≡◌};

use thiserror::Error;

/// Why a text is no script.
#[derive(Clone, Copy, Debug, PartialEq, Eq, Error)]
pub enum Why {
    /// It isn't TOML.
    #[error("the text isn't TOML")]
    NotToml,
    /// A key isn't there that has to be.
    #[error("the key is missing")]
    Missing,
    /// A value has another type.
    #[error("the value has another type")]
    WrongType,
    /// A key has no meaning there.
    #[error("the key is unknown")]
    UnknownKey,
    /// A number, a count or an address is outside its range.
    #[error("the value is out of range")]
    OutOfRange,
    /// A value stands for the second time where all have to differ.
    #[error("the value is repeated")]
    Repeated,
    /// A number is no server's position.
    #[error("there is no such server")]
    NoSuchServer,
    /// A number is no virtual address's position.
    #[error("there is no such virtual address")]
    NoSuchVip,
    /// A pool has no server.
    #[error("the pool is empty")]
    EmptyPool,
    /// A pool has more servers than the shape allows.
    #[error("the pool is too large")]
    PoolTooLarge,
    /// There are more than 4,096 changes.
    #[error("there are too many changes")]
    TooManyChanges,
    /// There are more than 16 virtual addresses.
    #[error("there are too many virtual addresses")]
    TooManyVips,
    /// The text is longer than a script may be. `parse` never answers it: whoever fetches the text does.
    #[error("the text is too long")]
    TextTooLong,
}

impl Why {
    ghost use Rattle.sr_script.specs.Why.{word_of};

    /// The word for it in the program's texts.
    pub fn word(&self) -> &'static str
        ensures { result.now ≡ word_of self.now }
    {
        match self {
            Why::NotToml => "not-toml",
            Why::Missing => "missing",
            Why::WrongType => "wrong-type",
            Why::UnknownKey => "unknown-key",
            Why::OutOfRange => "out-of-range",
            Why::Repeated => "repeated",
            Why::NoSuchServer => "no-such-server",
            Why::NoSuchVip => "no-such-vip",
            Why::EmptyPool => "empty-pool",
            Why::PoolTooLarge => "pool-too-large",
            Why::TooManyChanges => "too-many-changes",
            Why::TooManyVips => "too-many-vips",
            Why::TextTooLong => "text-too-long",
        }
    }
}
