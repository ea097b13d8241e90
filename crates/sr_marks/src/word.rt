//! What is asked of a word of 64 marks.
ghost use Rattle.std.specs.Prelude.{◌≡◌, ◌<◌, ◌≤◌, Some, false, take, slice_set, slice_index_or, nat_lt, IfSome};
ghost use Rattle.sr_marks.specs.Marks.{count_set, nth_set, next_set};
ghost use Rattle.sr_marks.specs.Words.{bits_of};

/// Whether the bit is set.
pub fn has_bit(word: u64, bit: usize) -> bool
    requires { bit < 64 }
    ensures { result ≡ slice_index_or (bits_of 64 word) bit false }
{
    word >> bit & 1 == 1
}

/// The word with this bit set, or without it.
pub fn with_bit(word: u64, bit: usize, mark: bool) -> u64
    requires { bit < 64 }
    ensures { bits_of 64 result ≡ slice_set (bits_of 64 word) bit mark }
{
    if mark {
        word | 1 << bit
    } else {
        word & !(1 << bit)
    }
}

/// Whether some bit is set.
pub fn is_some(word: u64) -> bool
    ensures { result ≡ nat_lt 0 (count_set (bits_of 64 word)) }
{
    word != 0
}

/// How many bits are set.
pub fn count(word: u64) -> u32
    ensures { result ≡ count_set (bits_of 64 word) }
{
    word.count_ones()
}

/// How many bits below this one are set.
pub fn count_below(word: u64, bit: usize) -> u32
    requires { bit < 64 }
    ensures { result ≡ count_set (take bit (bits_of 64 word)) }
{
    count(word & ((1 << bit) - 1))
}

/// The first set bit that is at least this one.
pub fn next_bit(word: u64, from: usize) -> Option<usize>
    requires { from < 64 }
    ensures value { result ≡ next_set from (bits_of 64 word) }
    ensures within { IfSome result (λ bit. bit < 64) }
{
    let left = word >> from;
    if left == 0 {
        None
    } else {
        Some(from + left.trailing_zeros() as usize)
    }
}

/// The n-th set bit, from 0.
pub fn nth_bit(word: u64, n: u32) -> usize
    requires { n < count_set (bits_of 64 word) }
    ensures value { nth_set n (bits_of 64 word) ≡ Some result }
    ensures within { result < 64 }
{
    let mut left = n;
    for bit in 0..64 {
        if has_bit(word, bit) {
            if left == 0 {
                return bit;
            }
            left -= 1;
        }
    }
    unreachable!()
}
