ghost use Rattle.std.specs.Prelude.{Some};
ghost use Rattle.sr_io.specs.SureShelf.{fetched_of, Gives};

use crate::FetchRefusal;
use std::alloc::Global;

/// A text of at most `limit` bytes, copied.
pub fn copied(alloc: Global, text: &[u8], limit: usize) -> Result<Vec<u8>, FetchRefusal>
    ensures { Gives (λ v. v.items) result (fetched_of (Some text.now) limit) }
{
    if text.len() > limit {
        return Err(FetchRefusal::TooLong);
    }
    match Vec::from_slice(alloc, text) {
        Ok(bytes) => Ok(bytes),
        Err(_) => Err(FetchRefusal::Memory),
    }
}
