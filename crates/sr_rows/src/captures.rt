//! Whole captures, and captures that are refused: the words that `capture` reads, and then what is told.
use crate::bytes::capture;
use crate::play::{row_of, tells};
use std::alloc::{AllocError, Global};
use std::test::Fail;
use std::thread::Threads;

// The first run, its header alone, data alone, skipped records; hostile frames and records; high byte first, nanoseconds and Ethernet, with up
// to two tags, and with three; headers that are refused.
const CAPTURES: &str = "raw syn data
silkroad 1
give 1 0 0 1
packet 1 2 3 0 0/10.0.0.9:4000 open to 0 0 1
packet 2 4 5 0 0/10.0.0.9:4000 data to 0 0 1
exit 0
==
raw
silkroad 1
give 1 0 0 1
exit 0
==
raw data
silkroad 1
give 1 0 0 1
packet 1 2 3 0 0/10.0.0.9:4000 data to 0 0 1
exit 0
==
raw 9=17 19=2 syn
silkroad 1
skip 1 nottcp
skip 2 notvip
give 1 0 0 1
packet 3 2 3 0 0/10.0.0.9:4000 open to 0 0 1
exit 0
==
raw 0=79
silkroad 1
skip 1 short
give 1 0 0 1
exit 0
==
raw 0=68
silkroad 1
skip 1 short
give 1 0 0 1
exit 0
==
raw 3=19
silkroad 1
skip 1 short
give 1 0 0 1
exit 0
==
raw 3=0
silkroad 1
give 1 0 0 1
packet 1 2 3 0 0/10.0.0.9:4000 open to 0 0 1
exit 0
==
raw 7=1
silkroad 1
skip 1 fragment
give 1 0 0 1
exit 0
==
raw 6=32
silkroad 1
give 1 0 0 1
packet 1 2 3 0 0/10.0.0.9:4000 open to 0 0 1
exit 0
==
raw 0=101
silkroad 1
skip 1 notipv4
give 1 0 0 1
exit 0
==
raw 3=33
silkroad 1
skip 1 short
give 1 0 0 1
exit 0
==
raw 3=34
silkroad 1
give 1 0 0 1
packet 1 2 3 0 0/10.0.0.9:4000 open to 0 0 1
exit 0
==
raw 23=81
silkroad 1
skip 1 notvip
give 1 0 0 1
exit 0
==
raw 33=18
silkroad 1
give 1 0 0 1
packet 1 2 3 0 0/10.0.0.9:4000 data to 0 0 1
exit 0
==
raw 33=17
silkroad 1
give 1 0 0 1
packet 1 2 3 0 0/10.0.0.9:4000 end to 0 0 1
exit 0
==
raw 33=6
silkroad 1
give 1 0 0 1
packet 1 2 3 0 0/10.0.0.9:4000 end to 0 0 1
exit 0
==
front 33
silkroad 1
skip 1 short
give 1 0 0 1
exit 0
==
front 34
silkroad 1
give 1 0 0 1
packet 1 2 3 0 0/10.0.0.9:4000 open to 0 0 1
exit 0
==
ethernet 13
silkroad 1
skip 1 short
give 1 0 0 1
exit 0
==
ethernet 14
silkroad 1
skip 1 notipv4
give 1 0 0 1
exit 0
==
zeros 0 0
silkroad 1
skip 1 short
give 1 0 0 1
exit 0
==
zeros 262144 262144
silkroad 1
skip 1 notipv4
give 1 0 0 1
exit 0
==
zeros 262145 0
silkroad 1
give 1 0 0 1
exit 3 silkroad: capture: too long at 24
==
tagged 0
silkroad 1
give 1 0 0 1
packet 1 2 3 0 0/10.0.0.9:4000 open to 0 0 1
packet 2 4 5 0 0/10.0.0.9:4000 data to 0 0 1
exit 0
==
tagged 1
silkroad 1
give 1 0 0 1
packet 1 2 3 0 0/10.0.0.9:4000 open to 0 0 1
packet 2 4 5 0 0/10.0.0.9:4000 data to 0 0 1
exit 0
==
tagged 2
silkroad 1
give 1 0 0 1
packet 1 2 3 0 0/10.0.0.9:4000 open to 0 0 1
packet 2 4 5 0 0/10.0.0.9:4000 data to 0 0 1
exit 0
==
tagged 3
silkroad 1
skip 1 notipv4
skip 2 notipv4
give 1 0 0 1
exit 0
==
header 0=213
exit 3 silkroad: capture: magic
==
header 4=3
exit 3 silkroad: capture: major
==
header 20=2
exit 3 silkroad: capture: link type
==
header 21=1
exit 3 silkroad: capture: link type
";

// Whether a row is told so, in pieces of this size.
fn is_told<R: Threads + Sync>(
    rt: &R,
    alloc: Global,
    row: &str,
    piece: usize,
) -> Result<bool, AllocError> {
    let (words, wanted) = row.split_once('\n').unwrap_or((row, ""));
    let input = capture(alloc, words)?;
    tells(rt, alloc, row_of(&input, piece), wanted)
}

// The first row that isn't told so. Empty where each is.
fn mistold<R: Threads + Sync>(rt: &R, alloc: Global) -> Result<&'static str, AllocError> {
    for row in CAPTURES.split("==\n") {
        if !is_told(rt, alloc, row, 4096)? || !is_told(rt, alloc, row, 7)? {
            return Ok(row);
        }
    }
    Ok("")
}

#[test]
fn captures(rt: HostRuntime) -> Result<(), Fail> {
    assert_eq!(rt; mistold(&rt, rt.alloc())?, "");
    Ok(())
}
