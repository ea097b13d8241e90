ghost use Rattle.std.specs.Prelude.{◌≡◌, ℕ, ◌<◌, ◌≤◌, ◌%◌, ◌^◌, MatchOption};

use std::marker::Model;

/// The number of a version of a virtual address's pool, of six bits. (SilkRoad, SIGCOMM 2017: connections carry the version of their pool.)
#[derive(Clone, Copy, Debug, PartialEq, Eq, PartialOrd, Ord, Hash)]
pub struct Version(u8);

impl Model for Version {
    ghost Value = { ℕ };

    ghost view = { λ v. v.0 };

    ghost invariant = { λ v. v.0 < 64 };

    ghost inverse = { λ n. record { 0 = n } };
}

impl Version {
    /// The version of this number. None exactly where the number isn't below 64.
    pub fn new(n: u8) -> Option<Version>
        ensures { MatchOption result (64 ≤ n) (λ v. (n < 64) × (v ≡ n)) }
    {
        if n < 64 { Some(Version(n)) } else { None }
    }

    /// Version 0, which each virtual address begins with.
    pub fn zero() -> Version
        ensures { result ≡ 0 }
    {
        Version(0)
    }

    /// Its number.
    pub fn number(&self) -> u8
        ensures value { result ≡ self.now }
        ensures bits { result < 64 }
    {
        self.0
    }
}

// The version in the lowest six bits of a word.
pub(crate) fn version_in(word: u64) -> Version
    ensures { result ≡ word % 2 ^ 6 }
{
    Version((word & 0x3f) as u8)
}
