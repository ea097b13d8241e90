ghost use Rattle.std.specs.Prelude.{◌≡◌, None};

use crate::{FetchRefusal, Shelf};
use std::alloc::Global;
use std::fs;
use std::io::{self, ErrorKind, Read};
use std::rt::Files;

/// The files of a runtime as a shelf. It tells nothing of their texts.
#[derive(Drop)]
pub struct FileShelf<'a, R> {
    files: &'a R,
    faults: u64,
}

impl<'a, R: Files> FileShelf<'a, R> {
    /// The files of this runtime; no fault yet.
    pub fn new(files: &'a R) -> FileShelf<'a, R>
        ensures { result ≡ record { files = files.entry; faults = 0 } }
    {
        FileShelf { files, faults: 0 }
    }
}

// The bytes of a file: all of them, or more than the limit.
fn read_file<R: Files>(files: &R, alloc: Global, name: &str, limit: usize) -> io::Result<Vec<u8>> {
    let file = fs::open(files, name)?;
    let mut bytes = Vec::new(alloc);
    let most = (limit as u64).saturating_add(1);
    file.take(most).read_to_end(&mut bytes)?;
    Ok(bytes)
}

impl<'a, R: Files> Shelf for FileShelf<'a, R> {
    ghost known = { λ s. record { texts = None; faults = s.faults } };

    fn fetch(&mut self, alloc: Global, name: &str, limit: usize) -> Result<Vec<u8>, FetchRefusal> {
        match read_file(self.files, alloc, name, limit) {
            Ok(bytes) => {
                if bytes.len() > limit {
                    return Err(FetchRefusal::TooLong);
                }
                Ok(bytes)
            }
            Err(e) => {
                if e.kind() == ErrorKind::OutOfMemory {
                    return Err(FetchRefusal::Memory);
                }
                self.faults = self.faults.saturating_add(1);
                Err(FetchRefusal::Failed)
            }
        }
    }
}
