//! Pcapng captures: the blocks of a capture, a word for each, and then what is told.
use crate::bytes::segment;
use crate::play::{row_of, tells};
use std::alloc::{AllocError, Global};
use std::test::Fail;
use std::thread::Threads;

// The first run, and its last byte cut; the high byte first; blocks without packets, and two sections; a link type that isn't read; a section
// alone; blocks that are refused, also the first one; no first block.
const CAPTURES: &str = "section raw syn data
silkroad 1
give 1 0 0 1
packet 1 2 3 0 0/10.0.0.9:4000 open to 0 0 1
packet 2 4 5 0 0/10.0.0.9:4000 data to 0 0 1
exit 0
==
section raw syn data cut
silkroad 1
give 1 0 0 1
packet 1 2 3 0 0/10.0.0.9:4000 open to 0 0 1
exit 3 silkroad: capture: cut at 120
==
big section raw syn data
silkroad 1
give 1 0 0 1
packet 1 2 3 0 0/10.0.0.9:4000 open to 0 0 1
packet 2 4 5 0 0/10.0.0.9:4000 data to 0 0 1
exit 0
==
section note raw syn note section raw data note
silkroad 1
give 1 0 0 1
packet 1 2 3 0 0/10.0.0.9:4000 open to 0 0 1
packet 2 4 5 0 0/10.0.0.9:4000 data to 0 0 1
exit 0
==
section loopback syn
silkroad 1
skip 1 notipv4
give 1 0 0 1
exit 0
==
section raw 9=17 syn
silkroad 1
skip 1 nottcp
give 1 0 0 1
packet 2 2 3 0 0/10.0.0.9:4000 open to 0 0 1
exit 0
==
section
silkroad 1
give 1 0 0 1
exit 0
==
section raw syn simple
silkroad 1
give 1 0 0 1
packet 1 2 3 0 0/10.0.0.9:4000 open to 0 0 1
exit 3 silkroad: capture: block at 120
==
section raw syn section data
silkroad 1
give 1 0 0 1
packet 1 2 3 0 0/10.0.0.9:4000 open to 0 0 1
exit 3 silkroad: capture: block at 148
==
section raw long
silkroad 1
give 1 0 0 1
exit 3 silkroad: capture: too long at 48
==
magic
silkroad 1
give 1 0 0 1
exit 3 silkroad: capture: magic
==
major
silkroad 1
give 1 0 0 1
exit 3 silkroad: capture: major
==
section cut
silkroad 1
give 1 0 0 1
exit 3 silkroad: capture: cut at 0
==
raw section
exit 3 silkroad: capture: magic
";

// Adds a number of four bytes, the high byte first or last.
fn add(bytes: &mut Vec<u8>, big: bool, n: u32) -> Result<(), AllocError> {
    if big {
        bytes.extend_from_slice(&n.to_be_bytes())
    } else {
        bytes.extend_from_slice(&n.to_le_bytes())
    }
}

// Adds these numbers.
fn add_all(bytes: &mut Vec<u8>, big: bool, numbers: &[u32]) -> Result<(), AllocError> {
    for n in numbers {
        add(bytes, big, *n)?;
    }
    Ok(())
}

// Adds a section header with this magic, and the two halves of its version as one number.
fn add_section(bytes: &mut Vec<u8>, big: bool, magic: u32, version: u32) -> Result<(), AllocError> {
    add_all(
        bytes,
        big,
        &[0x0a0d_0d0a, 28, magic, version, u32::MAX, u32::MAX, 28],
    )
}

// Adds a description of an interface with this link type, in the half of a number that its byte order puts first.
fn add_interface(bytes: &mut Vec<u8>, big: bool, link: u8) -> Result<(), AllocError> {
    let link = if big {
        link as u32 * 65_536
    } else {
        link as u32
    };
    add_all(bytes, big, &[1, 20, link, 262_144, 20])
}

// Adds an enhanced packet block with a segment.
fn add_packet(bytes: &mut Vec<u8>, big: bool, word: &str) -> Result<(), AllocError> {
    add_all(bytes, big, &[6, 72, 0, 0, 0, 40, 40])?;
    bytes.extend_from_slice(&segment(word))?;
    add(bytes, big, 72)
}

// Adds the block of a word.
fn add_block(bytes: &mut Vec<u8>, big: bool, word: &str) -> Result<(), AllocError> {
    let version = if big { 65_536 } else { 1 };
    match word {
        "section" => add_section(bytes, big, 0x1a2b_3c4d, version),
        "magic" => add_section(bytes, big, 0x1a2b_3c4e, version),
        "major" => add_section(bytes, big, 0x1a2b_3c4d, 2 * version),
        "raw" => add_interface(bytes, big, 101),
        "loopback" => add_interface(bytes, big, 0),
        "note" => add_all(bytes, big, &[5, 16, 77, 16]),
        "simple" => add_all(bytes, big, &[3, 20, 4, 0, 20]),
        "long" => add_all(bytes, big, &[6, 72, 0, 0, 0, 262_145, 262_145]),
        _ => add_packet(bytes, big, word),
    }
}

// The capture of these words.
fn capture(alloc: Global, words: &str) -> Result<Vec<u8>, AllocError> {
    let mut bytes = Vec::new(alloc);
    let mut big = false;
    for word in words.split_whitespace() {
        match word {
            "big" => big = true,
            "cut" => {
                let _ = bytes.pop();
            }
            _ => add_block(&mut bytes, big, word)?,
        }
    }
    Ok(bytes)
}

// Whether a row is told so, in pieces of this size.
fn is_told<R: Threads + Sync>(
    rt: &R,
    alloc: Global,
    row: &str,
    piece: usize,
) -> Result<bool, AllocError> {
    let (words, wanted) = row.split_once('\n').unwrap_or((row, ""));
    let input = capture(alloc, words)?;
    tells(rt, alloc, row_of(&input, piece), wanted)
}

// The first row that isn't told so. Empty where each is.
fn mistold<R: Threads + Sync>(rt: &R, alloc: Global) -> Result<&'static str, AllocError> {
    for row in CAPTURES.split("==\n") {
        if !is_told(rt, alloc, row, 4096)? || !is_told(rt, alloc, row, 1)? {
            return Ok(row);
        }
    }
    Ok("")
}

#[test]
fn captures_of_blocks(rt: HostRuntime) -> Result<(), Fail> {
    assert_eq!(rt; mistold(&rt, rt.alloc())?, "");
    Ok(())
}
