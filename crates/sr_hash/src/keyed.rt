ghost use Rattle.std.specs.Prelude.{◌≡◌, ◌≤◌};
ghost use Rattle.sr_hash.specs.Keyed.{hash_of};

use crate::fnv::{OFFSET, fold, next};
use sr_base::Key;

/// Hash number `i` of a key, from 0 to 9: FNV-1a over the byte `i` and the key's number as seven bytes, the highest first; then folded.
#[tactic(auto, unfolding(crate::specs::Keyed::hash_of))]
pub fn hash(i: u8, key: Key) -> u64
    requires { i ≤ 9 }
    ensures { result ≡ hash_of i key }
{
    let [_, a, b, c, d, e, f, g] = key.pack().to_be_bytes();
    let x = next(next(next(next(OFFSET, i), a), b), c);
    fold(next(next(next(next(x, d), e), f), g))
}
