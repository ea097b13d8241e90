ghost use Rattle.std.specs.Prelude.{◌≡◌};
ghost use Rattle.sr_script.specs.declared.refusal.ParseRefusal.TheVariants.{Memory};

use crate::Why;
use std::alloc::{AllocError, AllocFailed};
use thiserror::Error;

/// Why and where a text is no script: the first fault of a walk through it.
#[derive(Debug, Drop, PartialEq, Eq, Error)]
#[error("{why}: `{path}`")]
pub struct ScriptRefusal {
    /// Why.
    pub why: Why,
    /// Where: keys joined by dots, positions in brackets, from 0, as `vip[0].pool[1]`. Empty where the text isn't TOML.
    pub path: String,
}

/// Why `parse` gives no script.
#[derive(Debug, Drop, Error)]
pub enum ParseRefusal {
    /// The text is no script.
    #[error(transparent)]
    Script(#[from] ScriptRefusal),
    /// Memory ran out.
    #[error("out of memory")]
    Memory,
}

impl<T: Drop> From<AllocFailed<T>> for ParseRefusal {
    ghost from_gives = { λ _ e. e ≡ Memory };

    fn from(_error: AllocFailed<T>) -> ParseRefusal {
        ParseRefusal::Memory
    }
}

impl From<AllocError> for ParseRefusal {
    ghost from_gives = { λ _ e. e ≡ Memory };

    fn from(_error: AllocError) -> ParseRefusal {
        ParseRefusal::Memory
    }
}
