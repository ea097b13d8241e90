//! Captures from a number: the least one, and one that is read back.
use crate::play::{Row, row_of, told_with};
use std::alloc::{AllocError, Global};
use std::test::Fail;
use std::thread::Threads;

// The capture of one packet from the number 1.
const ONE_PACKET: [u8; 80] = [
    0xd4, 0xc3, 0xb2, 0xa1, 2, 0, 4, 0, 0, 0, 0, 0, 0, 0, 0, 0, 0, 0, 4, 0, 0x65, 0, 0, 0, 0, 0, 0,
    0, 0, 0, 0, 0, 40, 0, 0, 0, 40, 0, 0, 0, 0x45, 0, 0, 0x28, 0, 0, 0, 0, 0x40, 6, 0, 0, 10, 0, 0,
    1, 0xc0, 0, 2, 3, 0xc2, 0x35, 0, 0x50, 0, 0, 0, 0, 0, 0, 0, 0, 0x50, 2, 0, 0, 0, 0, 0, 0,
];

const DONE: &[u8] = b"exit 0\n";

// What is printed where all is done; nothing where it isn't.
fn printed(told: &[u8]) -> &[u8] {
    told.strip_suffix(DONE).unwrap_or(&[])
}

// The capture that these words make.
fn made<R: Threads + Sync>(rt: &R, alloc: Global, words: &str) -> Result<Vec<u8>, AllocError> {
    let row = Row {
        words,
        ..row_of(&[], 1)
    };
    let told = told_with(rt, alloc, row, &[])?;
    Vec::from_slice(alloc, printed(told.bytes()))
}

// Counts the lines of a log that say this.
fn count(log: &[u8], word: &[u8]) -> usize {
    log.windows(word.len().max(1))
        .filter(|part| *part == word)
        .count()
}

// How many packets a capture has to an address, and how many connections they open.
fn counts<R: Threads + Sync>(
    rt: &R,
    alloc: Global,
    input: &[u8],
    words: &str,
) -> Result<(usize, usize), AllocError> {
    let row = Row {
        words,
        ..row_of(input, 4096)
    };
    let told = told_with(rt, alloc, row, &[])?;
    let log = printed(told.bytes());
    Ok((count(log, b"\npacket "), count(log, b" open to ")))
}

// How many bytes a capture of 2,000 packets has, how many packets to the four addresses, and how many connections they open.
fn read_back<R: Threads + Sync>(
    rt: &R,
    alloc: Global,
) -> Result<(usize, usize, usize), AllocError> {
    let input = made(rt, alloc, "make|7|2000")?;
    let mut packets = 0usize;
    let mut openings = 0usize;
    for words in [
        "one|192.0.2.1:80|10.1.0.1:80",
        "one|192.0.2.2:80|10.1.0.1:80",
        "one|192.0.2.3:80|10.1.0.1:80",
        "one|192.0.2.4:80|10.1.0.1:80",
    ] {
        let counted = counts(rt, alloc, &input, words)?;
        packets = packets.saturating_add(counted.0);
        openings = openings.saturating_add(counted.1);
    }
    Ok((input.len(), packets, openings))
}

#[test]
fn captures_from_a_number(rt: HostRuntime) -> Result<(), Fail> {
    let one = made(&rt, rt.alloc(), "make|01|1")?;
    assert!(rt; one.as_slice() == ONE_PACKET.as_slice(), "one packet");
    assert_eq!(rt; read_back(&rt, rt.alloc())?, (24 + 2000 * 56, 2000, 200));
    Ok(())
}
