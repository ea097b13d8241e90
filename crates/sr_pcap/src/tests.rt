ghost use Rattle.std.specs.Prelude.{None};

use crate::{BeginRefusal, Next, Reader};
use sr_io::{Got, Source};
use std::alloc::Global;
use std::test::Fail;

// Little-endian, microseconds, raw IP: a record of 4 bytes and one of none.
const LITTLE: [u8; 60] = [
    0xd4, 0xc3, 0xb2, 0xa1, 2, 0, 4, 0, 0, 0, 0, 0, 0, 0, 0, 0, 0, 0, 4, 0, 101, 0, 0, 0, 1, 0, 0,
    0, 0x0f, 0x27, 0, 0, 4, 0, 0, 0, 4, 0, 0, 0, 10, 20, 30, 40, 2, 0, 0, 0, 0, 0, 0, 0, 0, 0, 0,
    0, 9, 0, 0, 0,
];

// Big-endian, nanoseconds, Ethernet, with other bits above the link type: a record of 2 bytes.
const BIG: [u8; 42] = [
    0xa1, 0xb2, 0x3c, 0x4d, 0, 2, 0, 4, 0, 0, 0, 0, 0, 0, 0, 0, 0, 4, 0, 0, 0xf0, 0, 0, 1, 0, 0, 0,
    1, 0, 0x2d, 0xc6, 0xbf, 0, 0, 0, 2, 0, 0, 0, 2, 7, 8,
];

// Bytes that come in pieces of at most so many. One of the calls may fail.
#[derive(Debug, Drop)]
struct Pieces<'a> {
    bytes: &'a [u8],
    piece: usize,
    failing: u64,
    calls: u64,
    faults: u64,
}

impl Source for Pieces<'_> {
    ghost known = { λ p. record { left = None; faults = p.faults } };

    fn read(&mut self, into: &mut [u8]) -> Got {
        self.calls = self.calls.saturating_add(1);
        if self.calls == self.failing {
            self.faults = self.faults.saturating_add(1);
            return Got::Failed;
        }
        let n = self.piece.min(into.len()).min(self.bytes.len());
        if n == 0 {
            return Got::End;
        }
        into[..n].copy_from_slice(&self.bytes[..n]);
        self.bytes = &self.bytes[n..];
        Got::Bytes(n)
    }
}

fn in_pieces(bytes: &[u8], piece: usize, failing: u64) -> Pieces<'_> {
    Pieces {
        bytes,
        piece,
        failing,
        calls: 0,
        faults: 0,
    }
}

// The answers of three calls, or why the capture can't be read.
fn three(alloc: Global, source: &mut Pieces<'_>) -> Result<[Next; 3], BeginRefusal> {
    let mut reader = Reader::begin(alloc, source)?;
    Ok([
        reader.next(source),
        reader.next(source),
        reader.next(source),
    ])
}

// Whether the bytes, read in such pieces and with such a call failing, have these answers.
fn answers(
    alloc: Global,
    bytes: &[u8],
    piece: usize,
    failing: u64,
    expected: Result<[Next; 3], BeginRefusal>,
) -> bool {
    three(alloc, &mut in_pieces(bytes, piece, failing)) == expected
}

// What the first bytes of the little-endian capture answer, where there are so many of them.
fn cut_at(n: usize) -> Result<[Next; 3], BeginRefusal> {
    let first = Next::Whole {
        ms: 1_009,
        offset: 24,
    };
    let second = Next::Whole {
        ms: 2_000,
        offset: 44,
    };
    match n {
        0..=23 => Err(BeginRefusal::Truncated { offset: 0 }),
        24 => Ok([Next::End; 3]),
        25..=43 => Ok([Next::Truncated { offset: 24 }; 3]),
        44 => Ok([first, Next::End, Next::End]),
        45..=59 => Ok([
            first,
            Next::Truncated { offset: 44 },
            Next::Truncated { offset: 44 },
        ]),
        _ => Ok([first, second, Next::End]),
    }
}

// The little-endian capture with another byte at one place.
fn with_byte(at: usize, byte: u8) -> [u8; 60] {
    let mut bytes = LITTLE;
    if at < bytes.len() {
        bytes[at] = byte;
    }
    bytes
}

#[test]
fn big_endian_nanoseconds(rt: HostRuntime) -> Result<(), Fail> {
    for piece in [1, 5, 100] {
        let mut source = in_pieces(&BIG, piece, 0);
        let mut reader = Reader::begin(rt.alloc(), &mut source)?;
        assert_eq!(rt; reader.link(), 1);
        assert_eq!(rt; reader.bytes(), [].as_slice());
        assert_eq!(rt;
            reader.next(&mut source),
            Next::Whole {
                ms: 1_002,
                offset: 24
            }
        );
        assert_eq!(rt; reader.next(&mut source), Next::End);
        assert_eq!(rt; reader.bytes(), [7, 8].as_slice());
    }
    Ok(())
}

#[test]
fn cut_anywhere(rt: HostRuntime) {
    for n in 0..61usize {
        assert!(rt; answers(rt.alloc(), &LITTLE[..n], 1, 0, cut_at(n)));
        assert!(rt; answers(rt.alloc(), &LITTLE[..n], 100, 0, cut_at(n)));
    }
}

#[test]
fn a_call_fails(rt: HostRuntime) {
    let whole = Next::Whole {
        ms: 1_002,
        offset: 24,
    };
    let fault = Next::ReadFault;
    let rows = [
        (100, 1, Err(BeginRefusal::ReadFault)),
        (30, 2, Ok([fault, fault, fault])),
        (40, 2, Ok([fault, fault, fault])),
        (100, 2, Ok([whole, fault, fault])),
        (40, 3, Ok([whole, fault, fault])),
        (100, 3, Ok([whole, Next::End, Next::End])),
    ];
    for (piece, call, expected) in rows {
        assert!(rt; answers(rt.alloc(), &BIG, piece, call, expected));
    }
}

#[test]
fn one_byte_changed(rt: HostRuntime) {
    let long = Next::TooLong {
        offset: 24,
        length: 262_148,
    };
    let cut = Next::Truncated { offset: 24 };
    let rows = [
        (0, 0, Err(BeginRefusal::Magic)),
        (4, 1, Err(BeginRefusal::Major)),
        (20, 102, Err(BeginRefusal::LinkType)),
        (34, 4, Ok([long; 3])),
        (34, 3, Ok([cut; 3])),
    ];
    for (at, byte, expected) in rows {
        assert!(rt;
            answers(rt.alloc(), &with_byte(at, byte), 100, 0, expected),
            "byte {at}"
        );
    }
}
