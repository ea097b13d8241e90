ghost use Rattle.std.specs.Prelude.{◌≡◌, ℕ, ◌<◌, ◌≤◌, cond, MatchOption};
ghost use Rattle.std.specs.Int.{bit_at};
ghost use Rattle.sr_update.specs.NumberSet.{NoneIn, IsNextIn, IsWith};

// The numbers below this one, at least 1 and at most 64, as the bits of a word.
pub(crate) fn numbers_below(count: u8) -> u64
    requires some { 1 ≤ count }
    requires most { count ≤ 64 }
    ensures within { (n : ℕ) → n < count → bit_at result n ≡ 1 }
    ensures past { (n : ℕ) → count ≤ n → bit_at result n ≡ 0 }
{
    u64::MAX >> (64 - count)
}

// The set with a number, or without it.
pub(crate) fn with_number(set: u64, n: u8, on: bool) -> u64
    requires { n < 64 }
    ensures { IsWith set n on result }
{
    if on { set | 1 << n } else { set & !(1 << n) }
}

// The first number of the set, from this one on.
pub(crate) fn first_from(set: u64, low: u8) -> Option<u8>
    ensures { MatchOption result (NoneIn set low 64) (IsNextIn set low) }
{
    if low >= 64 {
        return None;
    }
    let rest = set & (u64::MAX << low);
    if rest == 0 {
        return None;
    }
    Some(rest.trailing_zeros() as u8)
}
