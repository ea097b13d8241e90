ghost use Rattle.std.specs.Prelude.{◌≡◌, ◌≤◌, IfSome};
ghost use Rattle.std.specs.List.{list_all};
ghost use Rattle.sr_run.specs.Numbers.{count_of_packets, fitting, number_of, packets_in};
ghost use Rattle.sr_decimal.specs.Front.{is_digit, value_from};

/// The number that a word spells: 1 to 20 decimal digits, below 2^64. None for every other word.
#[tactic(auto, unfolding(crate::specs::Numbers::number_of))]
pub(crate) fn number_of(word: &str) -> Option<u64>
    ensures { result ≡ number_of word.now }
{
    let digits = word.as_bytes();
    if 1 <= digits.len() && digits.len() <= 20 && all_digits(digits) {
        value_of(digits)
    } else {
        None
    }
}

/// The number of packets that a word spells: 1 to 4,194,304. None for every other word.
#[tactic(auto, unfolding(crate::specs::Numbers::count_of_packets))]
pub(crate) fn count_of_packets(word: &str) -> Option<u32>
    ensures value { result ≡ count_of_packets word.now }
    ensures some { IfSome result (λ n. (1 ≤ n) × (n ≤ 4194304)) }
{
    let n = number_of(word)?;
    if 1 <= n && n <= 4_194_304 {
        Some(n as u32)
    } else {
        None
    }
}

// Whether all of these are digits.
fn all_digits(bytes: &[u8]) -> bool
    ensures { result ≡ list_all is_digit bytes.now }
{
    bytes.iter().all(|byte| b'0' <= *byte && *byte <= b'9')
}

// The number that these digits spell, if it is below 2^64.
fn value_of(digits: &[u8]) -> Option<u64>
    ensures { result ≡ fitting (value_from 0 digits.now) }
{
    let mut value: u64 = 0;
    for digit in digits {
        let next = 10 * value as u128 + digit.saturating_sub(b'0') as u128;
        if next >= 1 << 64 {
            return None;
        }
        value = next as u64;
    }
    Some(value)
}
