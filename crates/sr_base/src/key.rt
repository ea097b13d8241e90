ghost use Rattle.std.specs.Prelude.{◌≡◌, ℕ, ◌*◌, ◌^◌, ◌<◌, ◌≤◌, MatchOption, Some};
ghost use Rattle.sr_base.specs.Key.{IsKey, KeyView, key_of, packed, same_key};

use std::marker::Model;

/// The client's side of a connection to a virtual address: which virtual address, and the client's IPv4 address and TCP port.
#[derive(Clone, Copy, Debug, PartialEq, Eq, PartialOrd, Ord, Hash)]
pub struct Key {
    /// The number of the virtual address, below 16.
    pub vip: u8,
    /// The client's IPv4 address (RFC 791, source address).
    pub ip: u32,
    /// The client's TCP port (RFC 9293, source port).
    pub port: u16,
}

impl Model for Key {
    ghost Value = { KeyView };

    ghost view = { λ k. record { vip = k.vip; ip = k.ip; port = k.port } };

    ghost invariant = { λ k. k.vip < 16 };

    ghost inverse = { λ v. record { vip = v.vip; ip = v.ip; port = v.port } };
}

impl Key {
    /// The key of these parts. None where there is no such virtual address: its number isn't below 16.
    pub fn new(vip: u8, ip: u32, port: u16) -> Option<Key>
        ensures { MatchOption result (16 ≤ vip) (λ k. (vip < 16) × (k ≡ record { vip = vip; ip = ip; port = port })) }
    {
        if vip < 16 {
            Some(Key { vip, ip, port })
        } else {
            None
        }
    }

    /// Whether the two keys are one.
    pub fn same(self, other: Key) -> bool
        ensures { result ≡ same_key self other }
    {
        self.vip == other.vip && self.ip == other.ip && self.port == other.port
    }

    /// The key as a number of 52 bits: the virtual address in bits 48 to 51, the client's address in bits 16 to 47, its port in bits 0 to 15.
    pub fn pack(&self) -> u64
        ensures value { result ≡ packed self.now }
        ensures bits { result < 2 ^ 52 }
    {
        (self.vip as u64 * (1 << 32) + self.ip as u64) * (1 << 16) + self.port as u64
    }

    /// The key of a packed number. None exactly where the number has more than 52 bits.
    pub fn unpack(word: u64) -> Option<Key>
        ensures { MatchOption result (2 ^ 52 ≤ word) (λ k. (word < 2 ^ 52) × (packed k ≡ word)) }
    {
        if word < 1 << 52 {
            Some(Key {
                vip: (word >> 48) as u8,
                ip: (word >> 16 & 0xffff_ffff) as u32,
                port: (word & 0xffff) as u16,
            })
        } else {
            None
        }
    }
}

// The key in the lowest 52 bits of a word.
pub(crate) fn key_in(word: u64) -> Key
    ensures { result ≡ key_of word }
{
    Key {
        vip: (word >> 48 & 0xf) as u8,
        ip: (word >> 16 & 0xffff_ffff) as u32,
        port: (word & 0xffff) as u16,
    }
}

/// The law of the packing: a packed key unpacks to itself, and to nothing else.
pub fn key_unpacks(key: Key) -> Option<Key>
    ensures { result ≡ Some key }
{
    Key::unpack(key.pack())
}

/// The ranges of a key's parts.
pub fn key_ranges(key: Key)
    ensures { IsKey key }
{
    let _ = (key.vip, key.ip, key.port);
}
