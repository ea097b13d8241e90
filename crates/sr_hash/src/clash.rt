ghost use Rattle.std.specs.Prelude.{◌≡◌, ℕ, ◌≤◌};
ghost use Rattle.sr_hash.specs.Clash.{ClashIsMatch, clashes, tells_key, word_matches};
ghost use Rattle.sr_hash.specs.Uses.{bucket_of, digest_of};

use crate::uses::{bucket, digest};
use sr_base::{Key, Shape, SlotWord};

/// Whether the word of a cell in the key's bucket of this way, 1 or 2, is taken for the key's: it isn't Empty, its virtual address is the
/// key's, and its digest is the key's digest of that way, of so many bits. (SilkRoad, SIGCOMM 2017: another connection's may be, too.)
pub fn matches(word: SlotWord, way: u8, key: Key, bits: u8) -> bool
    requires way { (1 ≤ way) × (way ≤ 2) }
    requires bits { bits ≤ 16 }
    ensures { result ≡ word_matches word way key bits }
{
    match word {
        SlotWord::Empty => false,
        SlotWord::Reserved { vip, digest } => tells_key(vip, digest, way, key, bits),
        SlotWord::Live { vip, digest, .. } => tells_key(vip, digest, way, key, bits),
    }
}

// Whether these are the key's virtual address and its digest of this way.
fn tells_key(vip: u8, told: u16, way: u8, key: Key, bits: u8) -> bool
    requires way { (1 ≤ way) × (way ≤ 2) }
    requires bits { bits ≤ 16 }
    ensures { result ≡ tells_key vip told way key bits }
{
    vip == key.vip && told == digest(way, key, bits)
}

/// Whether two keys clash in a way, 1 or 2: in one bucket of that way the entry of the one is taken for the other's.
pub fn clashes(shape: &Shape, way: u8, a: Key, b: Key) -> bool
    requires way { (1 ≤ way) × (way ≤ 2) }
    requires buckets { 1 ≤ shape.now.buckets }
    requires bits { shape.now.digest_bits ≤ 16 }
    ensures value { result ≡ clashes shape.now way a b }
    ensures matched { ClashIsMatch shape.now way a b }
{
    let bits = shape.digest_bits;
    a.vip == b.vip
        && bucket(way, a, shape.buckets) == bucket(way, b, shape.buckets)
        && digest(way, a, bits) == digest(way, b, bits)
}
