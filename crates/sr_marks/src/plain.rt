//! What is asked of a list of marks, told by looking at one mark after another. `Marks` tells the same without that walk.
ghost use Rattle.std.specs.Prelude.{◌≡◌};
ghost use Rattle.sr_marks.specs.Marks.{nth_set, next_set, rank_of};

/// How many are set before this position.
pub fn before_plain(marks: &[bool], at: usize) -> usize
    ensures { result ≡ rank_of at marks.now }
{
    let mut count = 0;
    for k in 0..at.min(marks.len()) {
        if marks[k] {
            count += 1;
        }
    }
    count
}

/// The position of the n-th set mark, from 0. None where no more than n are set.
pub fn nth_plain(marks: &[bool], n: usize) -> Option<usize>
    ensures { result ≡ nth_set n marks.now }
{
    let mut left = n;
    for at in 0..marks.len() {
        if marks[at] {
            if left == 0 {
                return Some(at);
            }
            left -= 1;
        }
    }
    None
}

/// The first position of a set mark that is at least this one. None where there is none.
pub fn next_plain(marks: &[bool], from: usize) -> Option<usize>
    ensures { result ≡ next_set from marks.now }
{
    for at in from..marks.len() {
        if marks[at] {
            return Some(at);
        }
    }
    None
}
