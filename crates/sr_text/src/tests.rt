//! Logs that are read back, and lines that are none of the grammar.
ghost use Rattle.std.specs.Prelude.{◌≤◌};

use crate::{Log, LogRefusal, print, print_head, print_skip, read_lines};
use sr_io::{MemSink, MemSource, Put};
use std::alloc::{AllocError, Global};
use std::test::Fail;

/// A log with lines of every kind, and the greatest numbers.
const LOG: &str = "\
silkroad 1
skip 1 notipv4
skip 4294967295 nottcp
skip 0 fragment
skip 2 short
skip 2 notvip
packet 4294967295 18446744073709551615 10 255 15/255.255.255.255:65535 open down 4294967295 63 18446744073709551615
packet 0 0 0 0 0/0.0.0.0:0 data to 0 0 0
packet 1 2 3 4 5/10.0.0.9:4000 end held clash
packet 1 2 3 4 5/10.0.0.9:4000 end held hold
packet 1 2 3 4 5/10.0.0.9:4000 end held transit
packet 1 2 3 4 5/10.0.0.9:4000 end full
answer 12 0 4294967295 0/10.0.0.9:4000 noplace
give 1 255 63 18446744073709551615
record 2 0
hold 3 255
switch 4 255 18446744073709551615
finish 18446744073709551615 255
down 6 4294967295
reserve 7 0/10.0.0.9:4000 w255b4294967295c255
place 8 0/10.0.0.9:4000 f4294967295
clear 9 0/10.0.0.9:4000 w0b0c0
sweep 18446744073709551615 10 11 18446744073709551615
retire 12 0/10.0.0.9:4000
refuse 13 4294967295
";

/// Lines that the grammar doesn't have behind another line.
const BAD: &str = "
hold 01 0
hold 1 00
hold 1 256
hold 18446744073709551616 0
hold  1 0
hold 1  0
hold 1
hold 1 0 0
hold 1 0\t
hold 1 0\r
 hold 1 0
Hold 1 0
hold1 0
hold +1 0
hold 1 a
held 1 0
skip 1 short
silkroad 1
down 1 4294967296
refuse 1 4294967296
give 1 0 64 1
give 1 0 0 18446744073709551616
switch 1 0
sweep 1 2 3
retire 1 16/1.2.3.4:5
retire 1 0/256.2.3.4:5
retire 1 0/1.2.03.4:5
retire 1 0/1.2.3:5
retire 1 0/1.2.3.4:65536
retire 1 0/1.2.3.4
place 1 0/1.2.3.4:5 w256b0c0
place 1 0/1.2.3.4:5 w1b0c
place 1 0/1.2.3.4:5 f4294967296
place 1 0/1.2.3.4:5 x1
packet 4294967296 2 3 0 0/1.2.3.4:5 open full
packet 1 2 3 256 0/1.2.3.4:5 open full
packet 1 2 3 0 0/1.2.3.4:5 syn full
packet 1 2 3 0 0/1.2.3.4:5 open held
answer 1 0 1 0/1.2.3.4:5 to 0 64 1
answer 1 0 1 0/1.2.3.4:5 to 0 0
answer 1 0 1 0/1.2.3.4:5 full 0";

// Reads a text that comes in pieces of so many bytes. The calls with these numbers fail.
fn read(alloc: Global, text: &[u8], piece: usize, fails: &[u64]) -> Result<Log, LogRefusal>
    requires { 1 ≤ piece }
{
    let bytes = Vec::from_slice(alloc, text)?;
    let fails = Vec::from_slice(alloc, fails)?;
    let mut source = MemSource::new(bytes, piece, fails);
    read_lines(alloc, &mut source)
}

// Why a text can't be read.
fn refusal(alloc: Global, text: &[u8], piece: usize, fails: &[u64]) -> Option<LogRefusal>
    requires { 1 ≤ piece }
{
    match read(alloc, text, piece, fails) {
        Ok(_) => None,
        Err(why) => Some(why),
    }
}

// Whether a log prints as this text.
fn prints(alloc: Global, log: &Log, text: &str) -> Result<bool, AllocError> {
    let mut sink = MemSink::new(alloc, text.len(), Vec::new(alloc))?;
    let mut all = print_head(&mut sink) == Put::All;
    for skip in &log.skips {
        all = all && print_skip(skip.0, skip.1, &mut sink) == Put::All;
    }
    for line in &log.lines {
        all = all && print(line, &mut sink) == Put::All;
    }
    Ok(all && sink.bytes() == text.as_bytes())
}

#[test]
fn printed_and_read(rt: HostRuntime) -> Result<(), Fail> {
    for piece in [1, 199, 1_000_000] {
        let log = read(rt.alloc(), LOG.as_bytes(), piece, &[])?;
        assert_eq!(rt; (log.skips.len(), log.lines.len()), (5, 19));
        assert!(rt; prints(rt.alloc(), &log, LOG)?);
    }
    Ok(())
}

#[test]
fn bad_lines(rt: HostRuntime) -> Result<(), Fail> {
    for line in BAD.split('\n') {
        let mut text = String::from_str(rt.alloc(), "silkroad 1\nhold 1 0\n")?;
        text.push_str(line)?;
        text.push_str("\nhold 2 0\n")?;
        let bad = LogRefusal::BadLine { number: 3 };
        assert_eq!(rt; refusal(rt.alloc(), text.as_bytes(), 7, &[]), Some(bad));
    }
    Ok(())
}

#[test]
fn first_bad_line(rt: HostRuntime) {
    let rows = [
        ("", 1),
        ("silkroad 1", 1),
        ("silkroad 2\n", 1),
        ("silkroad 1\n\n", 2),
        ("silkroad 1\nhold 1 0", 2),
        ("silkroad 1\nskip 4294967296 short\n", 2),
        ("silkroad 1\nskip 1 long\n", 2),
        ("silkroad 1\nskip 1 short\nhold 1 0\nskip 2 short\n", 4),
    ];
    for (text, number) in rows {
        let bad = LogRefusal::BadLine { number };
        assert_eq!(rt; refusal(rt.alloc(), text.as_bytes(), 3, &[]), Some(bad));
    }
}

#[test]
fn long_lines(rt: HostRuntime) -> Result<(), Fail> {
    for length in [193usize, 600_000] {
        let mut text = String::from_str(rt.alloc(), "silkroad 1\nhold 1 ")?;
        for _ in 0..length {
            text.push('0')?;
        }
        text.push('\n')?;
        let bad = LogRefusal::BadLine { number: 2 };
        assert_eq!(rt;
            refusal(rt.alloc(), text.as_bytes(), 65_536, &[]),
            Some(bad)
        );
    }
    Ok(())
}

#[test]
fn a_call_fails(rt: HostRuntime) {
    for call in [1, 2, 9] {
        let fault = LogRefusal::ReadFault;
        assert_eq!(rt;
            refusal(rt.alloc(), LOG.as_bytes(), 100, &[call]),
            Some(fault)
        );
    }
}
