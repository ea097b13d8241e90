ghost use Rattle.std.specs.Prelude.{◌≡◌, ◌≤◌, option_map, IfSome};
ghost use Rattle.sr_decimal.specs.Front.{digits_on, number_front};

/// The number at the front, in decimal digits without leading zeros, and the bytes that follow its last digit. A zero is a number by itself:
/// digits behind it are bytes that follow. None where no digit is at the front, or where the number is above `most`.
#[tactic(auto, unfolding(crate::specs::Front::number_front))]
pub fn number_front(most: u64, bytes: &[u8]) -> Option<(u64, &[u8])>
    ensures value { option_map (λ x. (x.0, x.1.now)) result ≡ number_front most bytes.now }
    ensures bound { IfSome result (λ x. x.0 ≤ most) }
{
    match bytes {
        [b'0', rest @ ..] => Some((0, rest)),
        [first @ b'1'..=b'9', rest @ ..] if (*first - b'0') as u64 <= most => digits_on(
            most,
            (*first - b'0') as u64,
            rest,
        ),
        _ => None,
    }
}

// The number that goes on from `start` with the digits at the front, at most `most`, and what follows them.
fn digits_on(most: u64, start: u64, bytes: &[u8]) -> Option<(u64, &[u8])>
    requires { start ≤ most }
    ensures value { option_map (λ x. (x.0, x.1.now)) result ≡ digits_on most start bytes.now }
    ensures bound { IfSome result (λ x. x.0 ≤ most) }
{
    let mut number = start;
    for (i, byte) in bytes.iter().enumerate() {
        if !byte.is_ascii_digit() {
            return Some((number, &bytes[i..]));
        }
        let next = 10 * number as u128 + (*byte - b'0') as u128;
        if next > most as u128 {
            return None;
        }
        number = next as u64;
    }
    Some((number, &[]))
}
