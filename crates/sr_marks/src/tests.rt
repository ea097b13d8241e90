//! Worked rows, and a generator's steps beside the plain bodies; each call that allocates succeeds here once.
use crate::{Marks, before_plain, next_plain, nth_plain};
use std::alloc::{AllocError, Global};
use std::process::Abort;
use std::test::Fail;

// The marks of a text: 1 for a set one.
fn marks(alloc: Global, text: &str) -> Result<Marks, AllocError> {
    let mut marks = Marks::new(alloc);
    for byte in text.bytes() {
        put(alloc, &mut marks, byte == b'1')?;
    }
    Ok(marks)
}

// One mark more, with room for it.
fn put(alloc: Global, marks: &mut Marks, mark: bool) -> Result<(), AllocError> {
    marks.reserve(alloc, 1)?;
    marks.push(mark);
    Ok(())
}

#[test]
fn nth_and_next(rt: HostRuntime) -> Result<(), Fail> {
    let marks = marks(rt.alloc(), "0110001")?;
    assert_eq!(rt; (marks.len(), marks.count()), (7, 3));
    let nth = [Some(1), Some(2), Some(6), None];
    for (n, want) in nth.into_iter().enumerate() {
        assert_eq!(rt; marks.nth(n), want);
    }
    let rows = [
        (0, 0, Some(1)),
        (1, 0, Some(1)),
        (2, 1, Some(2)),
        (3, 2, Some(6)),
        (6, 2, Some(6)),
        (7, 3, None),
        (100, 3, None),
    ];
    for (at, before, next) in rows {
        assert_eq!(rt; (marks.before(at), marks.next(at)), (before, next));
    }
    Ok(())
}

// Sets a mark or takes it away, where there is one at this position.
fn change(marks: &mut Marks, at: usize, mark: bool) {
    if at < marks.len() {
        marks.set(at, mark);
    }
}

#[test]
fn set_and_taken_away(rt: HostRuntime) -> Result<(), Fail> {
    let mut marks = marks(rt.alloc(), "0110001")?;
    for (at, mark) in [(1, false), (2, true), (4, true)] {
        change(&mut marks, at, mark);
    }
    assert_eq!(rt; marks.count(), 3);
    for (n, want) in [(0, Some(2)), (1, Some(4)), (2, Some(6)), (3, None)] {
        assert_eq!(rt; marks.nth(n), want);
    }
    Ok(())
}

// Sets a mark in both, where there is one at this position.
fn set_both(marks: &mut Marks, plain: &mut [bool], at: usize, mark: bool) {
    change(marks, at, mark);
    if at < plain.len() {
        plain[at] = mark;
    }
}

// A number after another, as a generator gives them.
fn drawn_after(drawn: u64) -> u64 {
    drawn
        .wrapping_mul(6364136223846793005)
        .wrapping_add(1442695040888963407)
}

// Both lists answer alike about this position.
fn compare(rt: &impl Abort, marks: &Marks, plain: &[bool], at: usize) -> Result<(), Fail> {
    let before = before_plain(plain, at);
    assert_eq!(rt;
        (
            marks.len(),
            marks.before(at),
            marks.next(at),
            marks.nth(before)
        ),
        (
            plain.len(),
            before,
            next_plain(plain, at),
            nth_plain(plain, before)
        )
    );
    Ok(())
}

// So many marks are pushed, set and taken away in a list that begins with so many unset ones.
fn beside_a_plain_list(
    rt: &impl Abort,
    alloc: Global,
    unset: usize,
    steps: u32,
) -> Result<(), Fail> {
    let mut marks = Marks::new(alloc);
    let mut plain = Vec::new(alloc);
    for _ in 0..unset {
        put(alloc, &mut marks, false)?;
        plain.push(false)?;
    }
    let mut drawn = 1u64;
    for _ in 0..steps {
        drawn = drawn_after(drawn);
        let at = (drawn >> 40) as usize % (plain.len() + 1);
        let mark = drawn >> 39 & 1 == 1;
        if drawn >> 38 & 1 == 1 {
            put(alloc, &mut marks, mark)?;
            plain.push(mark)?;
        } else {
            set_both(&mut marks, plain.as_mut_slice(), at, mark);
        }
        compare(rt, &marks, plain.as_slice(), at)?;
    }
    Ok(())
}

#[test]
fn few_marks_beside_a_plain_list(rt: HostRuntime) -> Result<(), Fail> {
    beside_a_plain_list(&rt, rt.alloc(), 0, 300)
}

// More than 64 words of 64, most of them without a mark.
#[test]
fn many_marks_beside_a_plain_list(rt: HostRuntime) -> Result<(), Fail> {
    beside_a_plain_list(&rt, rt.alloc(), 9000, 200)
}
