ghost use Rattle.std.specs.Prelude.{◌≡◌, ℕ, ◌≤◌, List, Option, Some, map, string_bytes, option_map};
ghost use Rattle.sr_io.specs.Faults.{Counts};
ghost use Rattle.sr_io.specs.MemShelf.{text_of, mem_fetched_of, after_fetch};
ghost use Rattle.sr_io.specs.Shelf.{Fetches, FetchFailed};
ghost use Rattle.sr_io.specs.SureShelf.{Gives};

use crate::calls::Calls;
use crate::copied::copied;
use crate::{FetchRefusal, Shelf};
use std::alloc::Global;
use std::marker::Model;

/// Texts under their names in memory, on a shelf some calls of which fail.
#[derive(Drop)]
pub struct MemShelf {
    files: Vec<(String, Vec<u8>)>,
    calls: Calls,
}

impl Model for MemShelf {
    ghost use Rattle.std.specs.Prelude.{map, string_bytes};
    ghost use Rattle.sr_io.specs.MemShelf.{MemShelfView};

    ghost Value = { MemShelfView };

    ghost view = { λ s. record { files = map (λ f. (string_bytes f.0, f.1.items)) s.files.items; calls = s.calls } };
}

impl MemShelf {
    /// The first file of a name counts. The calls with the numbers `fails`, from 1, fail.
    pub fn new(files: Vec<(String, Vec<u8>)>, fails: Vec<u64>) -> MemShelf
        ensures { result ≡ record { files = map (λ f. (string_bytes f.0, f.1.items)) files.items; calls = record { fails = fails.items; made = 0; faults = 0 } } }
    {
        let calls = Calls::new(fails);
        MemShelf { files, calls }
    }
}

// The text of the first file of this name.
fn text_on<'a>(files: &'a [(String, Vec<u8>)], name: &str) -> Option<&'a [u8]>
    ensures { option_map (λ t. t.now) result ≡ text_of (map (λ f. (string_bytes f.0, f.1.items)) files.now) name.now }
{
    for file in files {
        if file.0.as_str() == name {
            return Some(&file.1);
        }
    }
    None
}

impl Shelf for MemShelf {
    ghost known = { λ s. record { texts = Some (text_of s.files); faults = s.calls.faults } };

    fn fetch(&mut self, alloc: Global, name: &str, limit: usize) -> Result<Vec<u8>, FetchRefusal>
        ensures text { Fetches (λ v. v.items) result (text_of self.old.files name.now) limit }
        ensures faults { Counts (FetchFailed result) self.old.calls.faults self.new.calls.faults }
        ensures answer { Gives (λ v. v.items) result (mem_fetched_of self.old name.now limit) }
        ensures after { self.new ≡ after_fetch self.old result }
    {
        if self.calls.fails_now() {
            return Err(FetchRefusal::Failed);
        }
        match text_on(&self.files, name) {
            Some(text) => copied(alloc, text, limit),
            None => {
                self.calls.fault();
                Err(FetchRefusal::Failed)
            }
        }
    }
}
