//! The bytes of captures, read from words. The segments are of client 10.0.0.9, port 4000, to 192.0.2.1, port 80.
use std::alloc::{AllocError, Global};

// A capture's header: microseconds, low byte first, raw IP.
const HEADER: [u8; 24] = [
    0xd4, 0xc3, 0xb2, 0xa1, 2, 0, 4, 0, 0, 0, 0, 0, 0, 0, 0, 0, 0, 0, 4, 0, 0x65, 0, 0, 0,
];

// The header of a record of 40 bytes at time 0.
const RECORD: [u8; 16] = [0, 0, 0, 0, 0, 0, 0, 0, 40, 0, 0, 0, 40, 0, 0, 0];

// High byte first, nanoseconds, Ethernet.
const BIG_NANO_ETHERNET: [u8; 24] = [
    0xa1, 0xb2, 0x3c, 0x4d, 0, 2, 0, 4, 0, 0, 0, 0, 0, 0, 0, 0, 0, 4, 0, 0, 0, 0, 0, 1,
];

// A SYN.
const SYN: [u8; 40] = [
    0x45, 0, 0, 0x28, 0, 0, 0, 0, 0x40, 6, 0, 0, 10, 0, 0, 9, 0xc0, 0, 2, 1, 0x0f, 0xa0, 0, 0x50,
    0, 0, 0, 0, 0, 0, 0, 0, 0x50, 2, 0, 0, 0, 0, 0, 0,
];

fn number(word: &str) -> u32 {
    match word.parse::<u32>() {
        Ok(n) => n,
        Err(_) => 0,
    }
}

// The place and the byte of a word such as `33=16`.
fn edit(word: &str) -> (usize, u8) {
    match word.split_once('=') {
        Some((at, byte)) => (number(at) as usize, (number(byte) % 256) as u8),
        None => (usize::MAX, 0),
    }
}

/// A SYN, a data segment, or the SYN with another byte at a place.
pub fn segment(word: &str) -> [u8; 40] {
    let (at, byte) = match word {
        "data" => (33, 0x10),
        _ => edit(word),
    };
    let mut segment = SYN;
    if at < 40 {
        segment[at] = byte;
    }
    segment
}

// A capture of these segments.
fn raw(alloc: Global, words: &str) -> Result<Vec<u8>, AllocError> {
    let mut bytes = Vec::from_slice(alloc, &HEADER)?;
    for word in words.split_whitespace() {
        bytes.extend_from_slice(&RECORD)?;
        bytes.extend_from_slice(&segment(word))?;
    }
    Ok(bytes)
}

// Adds a record, high byte first: two addresses, so many tags, the type of IPv4, and a segment.
fn add_tagged(bytes: &mut Vec<u8>, tags: u8, word: &str) -> Result<(), AllocError> {
    let length = [0, 0, 0, 54 + 4 * (tags % 4)];
    bytes.extend_from_slice(&[0; 8])?;
    bytes.extend_from_slice(&length)?;
    bytes.extend_from_slice(&length)?;
    bytes.extend_from_slice(&[2, 0, 0, 0, 0, 1, 2, 0, 0, 0, 0, 2])?;
    for _ in 0..tags % 4 {
        bytes.extend_from_slice(&[0x81, 0, 0, 5])?;
    }
    bytes.extend_from_slice(&[8, 0])?;
    bytes.extend_from_slice(&segment(word))
}

// The first run, in frames with so many tags, 0 to 3.
fn tagged(alloc: Global, tags: u8) -> Result<Vec<u8>, AllocError> {
    let mut bytes = Vec::from_slice(alloc, &BIG_NANO_ETHERNET)?;
    add_tagged(&mut bytes, tags, "syn")?;
    add_tagged(&mut bytes, tags, "data")?;
    Ok(bytes)
}

// A header with another byte at a place.
fn header(alloc: Global, word: &str) -> Result<Vec<u8>, AllocError> {
    let mut header = HEADER;
    let (at, byte) = edit(word);
    if at < 24 {
        header[at] = byte;
    }
    Vec::from_slice(alloc, &header)
}

// Adds the header of a record with this captured length.
fn add_record(bytes: &mut Vec<u8>, length: u32) -> Result<(), AllocError> {
    bytes.extend_from_slice(&[0; 8])?;
    bytes.extend_from_slice(&length.to_le_bytes())?;
    bytes.extend_from_slice(&[0; 4])
}

// A capture of one record with this captured length, and so many zero bytes behind its header.
fn zeros(alloc: Global, words: &str) -> Result<Vec<u8>, AllocError> {
    let (length, size) = words.split_once(' ').unwrap_or((words, ""));
    let mut bytes = Vec::from_slice(alloc, &HEADER)?;
    add_record(&mut bytes, number(length))?;
    for _ in 0..number(size) {
        bytes.push(0)?;
    }
    Ok(bytes)
}

// A capture of so many zero bytes over Ethernet.
fn ethernet(alloc: Global, word: &str) -> Result<Vec<u8>, AllocError> {
    let mut bytes = header(alloc, "20=1")?;
    add_record(&mut bytes, number(word))?;
    for _ in 0..number(word) {
        bytes.push(0)?;
    }
    Ok(bytes)
}

// A capture of the first so many bytes of the SYN.
fn front(alloc: Global, word: &str) -> Result<Vec<u8>, AllocError> {
    let mut bytes = Vec::from_slice(alloc, &HEADER)?;
    add_record(&mut bytes, number(word))?;
    bytes.extend_from_slice(&SYN[..(number(word) as usize).min(40)])?;
    Ok(bytes)
}

/// A capture of the SYNs of these clients, all at time 0.
pub fn openers(alloc: Global, clients: &[u32]) -> Result<Vec<u8>, AllocError> {
    let mut bytes = Vec::from_slice(alloc, &HEADER)?;
    for client in clients {
        bytes.extend_from_slice(&RECORD)?;
        bytes.extend_from_slice(&SYN[..12])?;
        bytes.extend_from_slice(&client.to_be_bytes())?;
        bytes.extend_from_slice(&SYN[16..])?;
    }
    Ok(bytes)
}

/// The capture of these words: `raw syn data`, `tagged 2`, `header 0=213`, `zeros 40 0`, `ethernet 14` or `front 33`.
pub fn capture(alloc: Global, words: &str) -> Result<Vec<u8>, AllocError> {
    let (form, rest) = words.split_once(' ').unwrap_or((words, ""));
    match form {
        "raw" => raw(alloc, rest),
        "tagged" => tagged(alloc, (number(rest) % 4) as u8),
        "header" => header(alloc, rest),
        "zeros" => zeros(alloc, rest),
        "ethernet" => ethernet(alloc, rest),
        _ => front(alloc, rest),
    }
}
