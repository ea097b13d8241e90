ghost use Rattle.std.specs.Prelude.{◌≡◌, ◌⊎◌, ◌+◌, ◌≤◌, ◌<◌, ◌^◌};
ghost use Rattle.sr_hash.specs.Uses.{bloom_places_of, bucket_of, digest_of, group_of, pipe_number, selected};

use crate::keyed::hash;
use sr_base::Key;

/// Which place of a pool of this size the key has, from 0. (SilkRoad, SIGCOMM 2017: a hash of the connection picks the server.)
pub fn select(size: u8, key: Key) -> u8
    requires { 1 ≤ size }
    ensures value { result ≡ selected size key }
    ensures below { result < size }
{
    (hash(0, key) % size as u64) as u8
}

/// The key's bucket of this way, 1 or 2, of so many.
pub fn bucket(way: u8, key: Key, buckets: u32) -> u32
    requires way { (1 ≤ way) × (way ≤ 2) }
    requires buckets { 1 ≤ buckets }
    ensures value { result ≡ bucket_of way key buckets }
    ensures below { result < buckets }
{
    (hash(way, key) % buckets as u64) as u32
}

/// The key's digest of this way, 1 or 2, of so many bits, 0 to 16.
pub fn digest(way: u8, key: Key, bits: u8) -> u16
    requires way { (1 ≤ way) × (way ≤ 2) }
    requires bits { bits ≤ 16 }
    ensures { result ≡ digest_of way key bits }
{
    (hash(way + 2, key) % (1 << bits)) as u16
}

/// The key's three places in the transit filter of so many bits; they may be equal. (SilkRoad: TransitTable, a Bloom filter.)
pub fn bloom_places(key: Key, filter_bits: u32) -> [u32; 3]
    requires { 1 ≤ filter_bits }
    ensures { result ≡ bloom_places_of key filter_bits }
{
    let bits = filter_bits as u64;
    let first = (hash(5, key) % bits) as u32;
    let second = (hash(6, key) % bits) as u32;
    let third = (hash(7, key) % bits) as u32;
    [first, second, third]
}

/// The key's group of four rows of the table of full keys, which has so many rows.
pub fn group(key: Key, full_rows: u32) -> u32
    requires { 4 ≤ full_rows }
    ensures { result ≡ group_of key full_rows }
{
    (hash(8, key) % (full_rows as u64 / 4)) as u32
}

/// The pipe that a packet of this key comes in on, of so many.
pub fn pipe_of(key: Key, pipes: u8) -> u8
    requires { 1 ≤ pipes }
    ensures value { result ≡ pipe_number key pipes }
    ensures below { result < pipes }
{
    (hash(9, key) % pipes as u64) as u8
}
