//! A repeated take, calls with an unknown key, and room that is made for a key.
use crate::small::{Book, client, small_layout};
use sr_base::Layout;
use std::alloc::{AllocError, Global};
use std::test::Fail;

// What a book answers to a repeated take and to calls with an unknown key: whether the first and the second take were of a new key, the version
// of the entry, whether an unknown key was closed or retired, and how many are registered.
fn told(alloc: Global, book: &mut Book) -> Result<Answers, AllocError> {
    let first = book.take(alloc, client(4000), 0)?;
    let second = book.take(alloc, client(4000), 1)?;
    Ok(Answers {
        first,
        second,
        version: book.version_of(client(4000)),
        closed: book.close(client(4001)),
        retired: book.retire(client(4001)).is_some(),
        registered: book.len(),
    })
}

#[derive(Clone, Copy, Debug, PartialEq, Eq)]
struct Answers {
    first: Option<bool>,
    second: Option<bool>,
    version: Option<u8>,
    closed: bool,
    retired: bool,
    registered: usize,
}

// The same of a new book.
fn told_of(alloc: Global, layout: &Layout) -> Result<Answers, AllocError> {
    let mut book = Book::new(alloc, layout)?;
    told(alloc, &mut book)
}

#[test]
fn a_repeated_take_keeps_the_version(rt: HostRuntime) -> Result<(), Fail> {
    let layout = small_layout().expect(&rt, "a layout");
    let expected = Answers {
        first: Some(true),
        second: Some(false),
        version: Some(0),
        closed: false,
        retired: false,
        registered: 1,
    };
    assert_eq!(rt; told_of(rt.alloc(), &layout)?, expected);
    Ok(())
}

// Room is made for a key, another key is taken, and then the key itself: whether each was new, and how many are registered.
fn taken_beside(
    alloc: Global,
    book: &mut Book,
) -> Result<(Option<bool>, Option<bool>, usize), AllocError> {
    book.reserve(alloc, client(4000))?;
    let other = book.take(alloc, client(4001), 0)?;
    let own = book.take(alloc, client(4000), 0)?;
    Ok((other, own, book.len()))
}

// The same of a new book.
fn taken_beside_of(
    alloc: Global,
    layout: &Layout,
) -> Result<(Option<bool>, Option<bool>, usize), AllocError> {
    let mut book = Book::new(alloc, layout)?;
    taken_beside(alloc, &mut book)
}

#[test]
fn room_for_a_key_stays(rt: HostRuntime) -> Result<(), Fail> {
    let layout = small_layout().expect(&rt, "a layout");
    assert_eq!(rt;
        taken_beside_of(rt.alloc(), &layout)?,
        (Some(true), Some(true), 2)
    );
    Ok(())
}
