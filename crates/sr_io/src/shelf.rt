ghost use Rattle.std.specs.Prelude.{◌≡◌, ◌≤◌, length, Some, IfOk};
ghost use Rattle.std.specs.Option.{ForSome};
ghost use Rattle.sr_io.specs.Faults.{Counts};
ghost use Rattle.sr_io.specs.Shelf.{ShelfKnown, Fetches, FetchFailed};

use std::alloc::Global;
use thiserror::Error;

/// Why a text wasn't fetched.
#[derive(Clone, Copy, Debug, PartialEq, Eq, Error)]
pub enum FetchRefusal {
    /// The text has more bytes than were allowed.
    #[error("too long")]
    TooLong,
    /// The device failed; a name that isn't there is such a failure.
    #[error("read fault")]
    Failed,
    /// No memory was found.
    #[error("no memory")]
    Memory,
}

/// Texts by their names, as a script in the file system.
pub trait Shelf {
    /// The text of each name, where the shelf tells them, and how often it failed.
    ghost known: { Self → ShelfKnown };

    /// The text of a name, of at most `limit` bytes.
    fn fetch(&mut self, alloc: Global, name: &str, limit: usize) -> Result<Vec<u8>, FetchRefusal>
        ensures within { IfOk result (λ v. length v.items ≤ limit) }
        ensures text { ForSome (known self.old).texts (λ texts. Fetches (λ v. v.items) result (texts name.now) limit) }
        ensures same { ForSome (known self.old).texts (λ texts. (known self.new).texts ≡ Some texts) }
        ensures faults { Counts (FetchFailed result) (known self.old).faults (known self.new).faults };
}
