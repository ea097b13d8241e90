ghost use Rattle.std.specs.Prelude.{None};

use crate::interface::Interface;
use crate::{NgNext, NgReader};
use sr_io::{Got, Source, Window};
use std::alloc::{AllocError, Global};
use std::test::Fail;

// Little-endian, raw IP, microseconds: a section header at 0, an interface at 28, and a packet of 4 bytes at 48.
const LITTLE: [u8; 84] = [
    0x0a, 0x0d, 0x0d, 0x0a, 28, 0, 0, 0, 0x4d, 0x3c, 0x2b, 0x1a, 1, 0, 0, 0, 255, 255, 255, 255,
    255, 255, 255, 255, 28, 0, 0, 0, 1, 0, 0, 0, 20, 0, 0, 0, 101, 0, 0, 0, 0, 0, 4, 0, 20, 0, 0,
    0, 6, 0, 0, 0, 36, 0, 0, 0, 0, 0, 0, 0, 0, 0, 0, 0, 0x40, 0x42, 0x0f, 0, 4, 0, 0, 0, 4, 0, 0,
    0, 10, 20, 30, 40, 36, 0, 0, 0,
];

// Big-endian, Ethernet, nanoseconds by the second option: a section header at 0, an interface at 28, and a packet of 2 bytes at 68.
const BIG: [u8; 104] = [
    0x0a, 0x0d, 0x0d, 0x0a, 0, 0, 0, 28, 0x1a, 0x2b, 0x3c, 0x4d, 0, 1, 0, 0, 255, 255, 255, 255,
    255, 255, 255, 255, 0, 0, 0, 28, 0, 0, 0, 1, 0, 0, 0, 40, 0, 1, 0, 0, 0, 4, 0, 0, 0, 1, 0, 1,
    120, 0, 0, 0, 0, 9, 0, 1, 9, 0, 0, 0, 0, 0, 0, 0, 0, 0, 0, 40, 0, 0, 0, 6, 0, 0, 0, 36, 0, 0,
    0, 0, 0, 0, 0, 1, 0, 0, 0, 0, 0, 0, 0, 2, 0, 0, 0, 2, 7, 8, 0, 0, 0, 0, 0, 36,
];

// A window has room for a packet's captured bytes.
const ROOM: usize = 262_144;

// Bytes that come in pieces of at most so many, the second part after the first. One of the calls may fail.
#[derive(Debug, Drop)]
struct Pieces<'a> {
    bytes: &'a [u8],
    then: &'a [u8],
    piece: usize,
    failing: u64,
    calls: u64,
    faults: u64,
}

impl Source for Pieces<'_> {
    ghost known = { λ p. record { left = None; faults = p.faults } };

    fn read(&mut self, into: &mut [u8]) -> Got {
        self.calls = self.calls.saturating_add(1);
        if self.calls == self.failing {
            self.faults = self.faults.saturating_add(1);
            return Got::Failed;
        }
        if self.bytes.is_empty() {
            self.bytes = self.then;
            self.then = &[];
        }
        let n = self.piece.min(into.len()).min(self.bytes.len());
        if n == 0 {
            return Got::End;
        }
        into[..n].copy_from_slice(&self.bytes[..n]);
        self.bytes = &self.bytes[n..];
        Got::Bytes(n)
    }
}

fn in_pieces<'a>(bytes: &'a [u8], then: &'a [u8], piece: usize, failing: u64) -> Pieces<'a> {
    Pieces {
        bytes,
        then,
        piece,
        failing,
        calls: 0,
        faults: 0,
    }
}

// The answers of three calls.
fn three(alloc: Global, source: &mut Pieces<'_>) -> Result<[NgNext; 3], AllocError> {
    let mut reader = NgReader::begin(alloc, Window::new(alloc, ROOM)?)?;
    Ok([
        reader.next(source),
        reader.next(source),
        reader.next(source),
    ])
}

// The little-endian capture with other bytes at one place.
fn with_bytes(at: usize, bytes: [u8; 4], n: usize) -> [u8; 84] {
    let mut changed = LITTLE;
    for i in 0..n.min(4) {
        if at < 84 && i < 84 - at {
            changed[at + i] = bytes[i];
        }
    }
    changed
}

// What the packet of the little-endian capture answers, where its block begins at this offset.
fn little(offset: u64) -> NgNext {
    NgNext::Whole {
        ms: 1_000,
        link: 101,
        offset,
    }
}

// What the packet of the big-endian capture answers.
fn big(offset: u64) -> NgNext {
    NgNext::Whole {
        ms: 4_294,
        link: 1,
        offset,
    }
}

// What the first bytes of the little-endian capture answer, where there are so many of them.
fn cut_at(n: usize) -> NgNext {
    match n {
        28 | 48 => NgNext::End,
        0..=27 => NgNext::Truncated { offset: 0 },
        29..=47 => NgNext::Truncated { offset: 28 },
        49..=83 => NgNext::Truncated { offset: 48 },
        _ => little(48),
    }
}

#[test]
fn cut_anywhere(rt: HostRuntime) -> Result<(), Fail> {
    for n in 0..85usize {
        for piece in [1, 5, 100] {
            let answers = three(rt.alloc(), &mut in_pieces(&LITTLE[..n], &[], piece, 0))?;
            assert_eq!(rt; answers[0], cut_at(n), "{n} bytes");
            assert_eq!(rt; answers[1], if n == 84 { NgNext::End } else { cut_at(n) });
        }
    }
    Ok(())
}

// A section header and then a packet, with no interface between them.
fn no_interface() -> [u8; 64] {
    let mut bytes = [0; 64];
    bytes[..28].copy_from_slice(&LITTLE[..28]);
    bytes[28..].copy_from_slice(&LITTLE[48..]);
    bytes
}

#[test]
fn sections(rt: HostRuntime) -> Result<(), Fail> {
    let forgets = no_interface();
    let rows = [
        (
            LITTLE.as_slice(),
            BIG.as_slice(),
            [little(48), big(152), NgNext::End],
        ),
        (&BIG, &LITTLE, [big(68), little(152), NgNext::End]),
        (
            &LITTLE,
            &LITTLE[48..],
            [little(48), little(84), NgNext::End],
        ),
        (&LITTLE[..48], &BIG[..28], [NgNext::End; 3]),
        (&BIG, &LITTLE[..28], [big(68), NgNext::End, NgNext::End]),
        (
            &LITTLE,
            &forgets,
            [
                little(48),
                NgNext::Block { offset: 112 },
                NgNext::Block { offset: 112 },
            ],
        ),
    ];
    for (first, second, expected) in rows {
        for piece in [1, 100] {
            let answers = three(rt.alloc(), &mut in_pieces(first, second, piece, 0))?;
            assert_eq!(rt; answers, expected);
        }
    }
    Ok(())
}

#[test]
fn bytes_of_a_packet(rt: HostRuntime) -> Result<(), Fail> {
    let mut reader = NgReader::begin(rt.alloc(), Window::new(rt.alloc(), ROOM)?)?;
    let mut source = in_pieces(&BIG, &LITTLE, 3, 0);
    let expected: [&[u8]; 3] = [&[7, 8], &[10, 20, 30, 40], &[]];
    for bytes in expected {
        let _ = reader.next(&mut source);
        assert_eq!(rt; reader.bytes(), bytes);
    }
    Ok(())
}

#[test]
fn refusals(rt: HostRuntime) -> Result<(), Fail> {
    let first = NgNext::Block { offset: 0 };
    let second = NgNext::Block { offset: 28 };
    let third = NgNext::Block { offset: 48 };
    let long = NgNext::TooLong {
        offset: 48,
        length: 262_148,
    };
    let cut = NgNext::Truncated { offset: 48 };
    let rows = [
        (0, [1, 0, 0, 0], first),
        (4, [29, 0, 0, 0], first),
        (4, [24, 0, 0, 0], first),
        (8, [0, 0, 0, 0], NgNext::Magic),
        (12, [2, 0, 0, 0], NgNext::Major),
        (24, [32, 0, 0, 0], first),
        (28, [2, 0, 0, 0], second),
        (28, [3, 0, 0, 0], second),
        (32, [16, 0, 0, 0], second),
        (44, [24, 0, 0, 0], second),
        (48, [5, 0, 0, 0], NgNext::End),
        (52, [28, 0, 0, 0], third),
        (52, [252, 255, 255, 255], cut),
        (56, [1, 0, 0, 0], third),
        (68, [4, 0, 4, 0], long),
        (
            68,
            [255, 255, 255, 255],
            NgNext::TooLong {
                offset: 48,
                length: 4_294_967_295,
            },
        ),
        (68, [5, 0, 0, 0], third),
        (80, [0, 0, 0, 0], third),
    ];
    for (at, bytes, expected) in rows {
        let capture = with_bytes(at, bytes, 4);
        let answers = three(rt.alloc(), &mut in_pieces(&capture, &[], 7, 0))?;
        assert_eq!(rt; answers, [expected; 3], "byte {at}");
    }
    Ok(())
}

#[test]
fn an_option_passes_its_block(rt: HostRuntime) -> Result<(), Fail> {
    let mut capture = BIG;
    capture[47] = 17;
    let answers = three(rt.alloc(), &mut in_pieces(&capture, &[], 100, 0))?;
    assert_eq!(rt; answers, [NgNext::Block { offset: 28 }; 3]);
    Ok(())
}

#[test]
fn a_call_fails(rt: HostRuntime) -> Result<(), Fail> {
    for call in 1..8u64 {
        let answers = three(rt.alloc(), &mut in_pieces(&LITTLE, &[], 12, call))?;
        assert_eq!(rt; answers, [NgNext::ReadFault; 3]);
    }
    Ok(())
}

#[test]
fn times(rt: HostRuntime) {
    let rows = [
        (6, 1_234_567, 1_234),
        (9, 1_234_567_890, 1_234),
        (138, 2_048, 2_000),
        (0, 5, 5_000),
        (3, 77, 77),
        (127, u64::MAX, 0),
        (255, u64::MAX, 0),
        (0, u64::MAX, (1 << 53) - 1),
    ];
    for (resolution, time, ms) in rows {
        let interface = Interface {
            link: 1,
            resolution,
        };
        assert_eq!(rt; interface.milliseconds(time), ms);
    }
}
