use crate::Clause;
use thiserror::Error;

/// Why a list isn't lawful, or wasn't judged.
#[derive(Clone, Copy, Debug, PartialEq, Eq, Error)]
pub enum CheckRefusal {
    /// The list isn't lawful.
    #[error("line {line} breaks the clause {clause:?}")]
    Breach {
        /// The first line that breaks a clause, from 1; for `Final` one past the last.
        line: usize,
        /// The first clause that it breaks.
        clause: Clause,
    },
    /// There was no memory.
    #[error("out of memory")]
    Memory,
}
