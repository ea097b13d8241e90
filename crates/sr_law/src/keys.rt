ghost use Rattle.std.specs.Prelude.{◌≡◌, ◌≤◌};
ghost use Rattle.sr_law.specs.Keys.{clashes_in};

use sr_base::{Key, Shape};
use sr_hash::clashes;

// The keys clash in this way, which is 1 or 2.
pub(crate) fn clashes_in(shape: &Shape, way: u8, a: Key, b: Key) -> bool
    requires buckets { 1 ≤ shape.now.buckets }
    requires bits { shape.now.digest_bits ≤ 16 }
    ensures { result ≡ clashes_in shape.now way a b }
{
    if way == 1 || way == 2 {
        clashes(shape, way, a, b)
    } else {
        false
    }
}
