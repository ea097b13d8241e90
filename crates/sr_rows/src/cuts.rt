//! The first run's 136 bytes, cut to every length, whole and one byte per read.
use crate::play::{FIRST_TOLD, first_run, row_of, tells};
use std::alloc::{AllocError, Global};
use std::test::Fail;
use std::thread::Threads;

const CUT_IN_HEADER: &str = "exit 3 silkroad: capture: cut at 0\n";

const HEADER_ALONE: &str = "silkroad 1
give 1 0 0 1
exit 0
";

const CUT_IN_FIRST: &str = "silkroad 1
give 1 0 0 1
exit 3 silkroad: capture: cut at 24
";

const FIRST_ALONE: &str = "silkroad 1
give 1 0 0 1
packet 1 2 3 0 0/10.0.0.9:4000 open to 0 0 1
exit 0
";

const CUT_IN_SECOND: &str = "silkroad 1
give 1 0 0 1
packet 1 2 3 0 0/10.0.0.9:4000 open to 0 0 1
exit 3 silkroad: capture: cut at 80
";

// What is told of the first n bytes.
fn wanted(n: usize) -> &'static str {
    match n {
        0..=23 => CUT_IN_HEADER,
        24 => HEADER_ALONE,
        25..=79 => CUT_IN_FIRST,
        80 => FIRST_ALONE,
        81..=135 => CUT_IN_SECOND,
        136 => FIRST_TOLD,
        _ => "",
    }
}

// The first length of which something else is told, in pieces of this size.
fn mistold<R: Threads + Sync>(
    rt: &R,
    alloc: Global,
    piece: usize,
) -> Result<Option<usize>, AllocError> {
    let input = first_run(alloc)?;
    for n in 0..=input.len() {
        if !tells(rt, alloc, row_of(&input[..n], piece), wanted(n))? {
            return Ok(Some(n));
        }
    }
    Ok(None)
}

#[test]
fn every_length(rt: HostRuntime) -> Result<(), Fail> {
    assert_eq!(rt; mistold(&rt, rt.alloc(), 4096)?, None, "whole");
    assert_eq!(rt; mistold(&rt, rt.alloc(), 1)?, None, "one byte per read");
    Ok(())
}
