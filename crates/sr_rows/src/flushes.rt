//! Each command flushes at its end: where the flush fails that is told, after the whole text, and no call comes after it.
use crate::audit::SCENE;
use crate::play::{FIRST, Row, WRITE_FAULT, first_run, row_of, told_with};
use sr_io::MemSink;
use std::alloc::{AllocError, Global};
use std::test::Fail;
use std::thread::Threads;

// What is told where this call of the sink fails.
fn told_failing<R: Threads + Sync>(
    rt: &R,
    alloc: Global,
    words: &str,
    input: &[u8],
    call: u64,
) -> Result<MemSink, AllocError> {
    let row = Row {
        words,
        write_fails: call,
        ..row_of(input, 4096)
    };
    told_with(rt, alloc, row, SCENE.as_bytes())
}

// Whether the whole text was printed both times, and the second time the sink failed then.
fn is_whole(done: &[u8], failed: &[u8]) -> bool {
    match (
        done.strip_suffix(b"exit 0\n"),
        failed.strip_suffix(WRITE_FAULT.as_bytes()),
    ) {
        (Some(text), Some(taken)) => !text.is_empty() && text == taken,
        _ => false,
    }
}

// Whether this call of the sink is the flush, and the last one.
fn flushes_last<R: Threads + Sync>(
    rt: &R,
    alloc: Global,
    words: &str,
    input: &[u8],
    call: u64,
) -> Result<bool, AllocError> {
    let done = told_failing(rt, alloc, words, input, call.saturating_add(1))?;
    let failed = told_failing(rt, alloc, words, input, call)?;
    Ok(is_whole(done.bytes(), failed.bytes()))
}

#[test]
fn each_command_flushes(rt: HostRuntime) -> Result<(), Fail> {
    let alloc = rt.alloc();
    let input = first_run(alloc)?;
    assert!(rt;
        flushes_last(&rt, alloc, "one|192.0.2.1:80|10.1.0.1:80", &input, 5)?,
        "one"
    );
    assert!(rt; flushes_last(&rt, alloc, "make|1|1", &[], 3)?, "make");
    assert!(rt;
        flushes_last(&rt, alloc, "audit|scene", FIRST.as_bytes(), 2)?,
        "audit"
    );
    assert!(rt;
        flushes_last(&rt, alloc, "replay|scene", &input, 7)?,
        "replay"
    );
    Ok(())
}
