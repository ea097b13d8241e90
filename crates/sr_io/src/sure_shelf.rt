ghost use Rattle.std.specs.Prelude.{◌≡◌, ℕ, List, Option, Some};
ghost use Rattle.sr_io.specs.Shelf.{Fetches, FetchFailed};
ghost use Rattle.sr_io.specs.SureShelf.{fetched_of, Gives};

use crate::copied::copied;
use crate::{FetchRefusal, Shelf};
use std::alloc::Global;
use std::marker::Model;

/// One text under every name, on a shelf that never fails.
#[derive(Drop)]
pub struct SureShelf {
    text: Vec<u8>,
}

impl Model for SureShelf {
    ghost use Rattle.std.specs.Prelude.{ℕ, List};

    ghost Value = { List ℕ };

    ghost view = { λ s. s.text.items };
}

impl SureShelf {
    /// This text under every name.
    pub fn new(text: Vec<u8>) -> SureShelf
        ensures { result ≡ text.items }
    {
        SureShelf { text }
    }
}

impl Shelf for SureShelf {
    ghost known = { λ s. record { texts = Some (λ _. Some s); faults = 0 } };

    fn fetch(&mut self, alloc: Global, _name: &str, limit: usize) -> Result<Vec<u8>, FetchRefusal>
        ensures text { Fetches (λ v. v.items) result (Some self.old) limit }
        ensures answer { Gives (λ v. v.items) result (fetched_of (Some self.old) limit) }
        ensures after { self.new ≡ self.old }
    {
        copied(alloc, &self.text, limit)
    }
}
