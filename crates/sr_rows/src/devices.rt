//! The first run over devices that fail at their k-th call.
use crate::play::{
    FIRST, FIRST_TOLD, READ_FAULT, Row, first_run, is_cut_short, row_of, tells, told_with,
};
use std::alloc::{AllocError, Global};
use std::test::Fail;
use std::thread::Threads;

// The first run's row, a byte at a time, in which these calls fail.
fn failing(input: &[u8], read_fails: u64, write_fails: u64) -> Row<'_> {
    Row {
        read_fails,
        write_fails,
        ..row_of(input, 1)
    }
}

// The source is read for each byte, and once more. The first call whose fault isn't told.
fn passed_over_read<R: Threads + Sync>(
    rt: &R,
    alloc: Global,
    input: &[u8],
) -> Result<Option<u64>, AllocError> {
    for k in 0..=input.len() as u64 {
        if !tells(
            rt,
            alloc,
            failing(input, k.saturating_add(1), 0),
            READ_FAULT,
        )? {
            return Ok(Some(k));
        }
    }
    Ok(None)
}

// The sink takes the head, the opening line and two packets, and is flushed. The first call whose fault isn't told.
fn passed_over_write<R: Threads + Sync>(
    rt: &R,
    alloc: Global,
    input: &[u8],
) -> Result<Option<u64>, AllocError> {
    for k in 1..=5 {
        let told = told_with(rt, alloc, failing(input, 0, k), &[])?;
        if !is_cut_short(told.bytes(), FIRST) {
            return Ok(Some(k));
        }
    }
    Ok(None)
}

#[test]
fn each_failing_call(rt: HostRuntime) -> Result<(), Fail> {
    let input = first_run(rt.alloc())?;
    assert_eq!(rt; passed_over_read(&rt, rt.alloc(), &input)?, None, "read");
    assert_eq!(rt; passed_over_write(&rt, rt.alloc(), &input)?, None, "write");
    assert!(rt;
        tells(
            &rt,
            rt.alloc(),
            failing(&input, (input.len() as u64).saturating_add(2), 6),
            FIRST_TOLD
        )?,
        "a further call"
    );
    Ok(())
}
