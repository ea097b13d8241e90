ghost use Rattle.std.specs.Prelude.{◌≡◌};
ghost use Rattle.sr_hash.specs.Fnv.{fnv_next, fnv_of, folded};

/// What FNV-1a starts from with 64 bits.
pub(crate) const OFFSET: u64 = 14695981039346656037;

const PRIME: u64 = 1099511628211;

// One byte more.
pub(crate) fn next(x: u64, byte: u8) -> u64
    ensures { result ≡ fnv_next x byte }
{
    (x ^ byte as u64).wrapping_mul(PRIME)
}

/// FNV-1a with 64 bits (Fowler, Noll and Vo).
pub fn fnv1a(bytes: &[u8]) -> u64
    ensures { result ≡ fnv_of bytes.now }
{
    bytes.iter().fold(OFFSET, |x, byte| next(x, *byte))
}

/// The high half xored into the low one.
pub fn fold(x: u64) -> u64
    ensures { result ≡ folded x }
{
    x ^ x >> 32
}
