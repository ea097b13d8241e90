//! Numbers at the front of bytes: decimal, without leading zeros, each with the one byte that ends it.
ghost use Rattle.std.specs.Prelude.{◌≡◌, ◌≤◌, option_map, IfSome};
ghost use Rattle.sr_text.specs.Fronts.{field_front};

use crate::word::after_word;
use sr_base::Version;
use sr_decimal::number_front;

/// A number that 8 bits hold, and what follows the byte behind it.
pub(crate) fn u8_front(ending: u8, bytes: &[u8]) -> Option<(u8, &[u8])>
    ensures { option_map (λ x. (x.0, x.1.now)) result ≡ field_front 255 ending bytes.now }
{
    let (n, rest) = field_front(255, ending, bytes)?;
    Some((n as u8, rest))
}

/// The same of 16 bits.
pub(crate) fn u16_front(ending: u8, bytes: &[u8]) -> Option<(u16, &[u8])>
    ensures { option_map (λ x. (x.0, x.1.now)) result ≡ field_front 65535 ending bytes.now }
{
    let (n, rest) = field_front(65_535, ending, bytes)?;
    Some((n as u16, rest))
}

/// The same of 32 bits.
pub(crate) fn u32_front(ending: u8, bytes: &[u8]) -> Option<(u32, &[u8])>
    ensures { option_map (λ x. (x.0, x.1.now)) result ≡ field_front 4294967295 ending bytes.now }
{
    let (n, rest) = field_front(4_294_967_295, ending, bytes)?;
    Some((n as u32, rest))
}

/// The same of 64 bits.
pub(crate) fn u64_front(ending: u8, bytes: &[u8]) -> Option<(u64, &[u8])>
    ensures { option_map (λ x. (x.0, x.1.now)) result ≡ field_front 18446744073709551615 ending bytes.now }
{
    field_front(18_446_744_073_709_551_615, ending, bytes)
}

/// A version, and what follows the byte behind it.
pub(crate) fn version_front(ending: u8, bytes: &[u8]) -> Option<(Version, &[u8])>
    ensures { option_map (λ x. (x.0, x.1.now)) result ≡ field_front 63 ending bytes.now }
{
    let (n, rest) = field_front(63, ending, bytes)?;
    let version = Version::new(n as u8)?;
    Some((version, rest))
}

/// A number up to `most`, and what follows the byte behind it.
#[tactic(auto, unfolding(crate::specs::Fronts::field_front))]
pub(crate) fn field_front(most: u64, ending: u8, bytes: &[u8]) -> Option<(u64, &[u8])>
    ensures value { option_map (λ x. (x.0, x.1.now)) result ≡ field_front most ending bytes.now }
    ensures bound { IfSome result (λ x. x.0 ≤ most) }
{
    let (number, rest) = number_front(most, bytes)?;
    let rest = after_word(&[ending], rest)?;
    Some((number, rest))
}
