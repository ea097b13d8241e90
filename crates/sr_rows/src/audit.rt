//! Logs that are judged by the narrow scene's script.
use crate::play::{FIRST, READ_FAULT, Row, is_cut_short, row_of, told_over, told_with};
use sr_io::MemShelf;
use std::alloc::{AllocError, Global};
use std::test::Fail;
use std::thread::Threads;

/// The narrow scene: one pipe, one bucket, no digest bits, so that all keys clash.
pub const SCENE: &str = "servers = [\"10.1.0.1:80\", \"10.1.0.2:80\"]
[shape]
pipes = 1
buckets = 1
digest_bits = 0
versions = 4
pool_max = 1
full_rows = 4
filter_bits = 1
ring = 8
window_ms = 1
idle_ms = 1
lives = 1
[[vip]]
addr = \"192.0.2.1:80\"
pool = [0]
";

// Logs, and after `--` what is told of each.
const LOGS: &str = "silkroad 1
give 1 0 0 1
packet 1 2 3 0 0/10.0.0.9:4000 open to 0 0 1
packet 2 4 5 0 0/10.0.0.9:4000 data to 0 0 1
--
lawful 3
exit 0
==
silkroad 1
skip 1 nottcp
skip 2 notvip
give 1 0 0 1
packet 3 2 3 0 0/10.0.0.9:4000 open to 0 0 1
--
lawful 2
exit 0
==
silkroad 1
give 1 0 0 1
packet 1 2 3 0 0/10.0.0.9:4000 open to 0 0 1
packet 2 4 5 0 0/10.0.0.9:4000 data to 1 0 1
--
exit 8 silkroad: audit: line 4 breaks server
==
silkroad 1
skip 3 short
give 1 0 0 1
packet 1 2 3 0 0/10.0.0.9:4000 open to 0 0 1
packet 2 4 5 0 0/10.0.0.9:4000 data to 1 0 1
--
exit 8 silkroad: audit: line 5 breaks server
==
silkroad 1
give 1 0 0 1
packet 1 2 3 0 0/10.0.0.9:4000 open to 0 0 1
packet 2 4 5 0 0/10.0.0.9:4000 data--
exit 8 silkroad: audit: line 4 breaks text
==
silkroad 1
give 1 0 0 1
packet 2 4 5 0 0/10.0.0.9:4000 data to 0 0 1
--
exit 8 silkroad: audit: line 4 breaks final
==
silkroad 1
give 2 0 0 1
--
exit 8 silkroad: audit: line 2 breaks order
==
--
exit 8 silkroad: audit: line 1 breaks text
";

// The words, over a log in pieces.
fn log_row(log: &[u8]) -> Row<'_> {
    Row {
        words: "audit|scene",
        ..row_of(log, 7)
    }
}

// A shelf that has this script under the name of the scene, and nothing else.
fn scene_shelf(alloc: Global, script: &[u8]) -> Result<MemShelf, AllocError> {
    let mut files = Vec::new(alloc);
    let name = String::from_str(alloc, "scene")?;
    files.push((name, Vec::from_slice(alloc, script)?))?;
    Ok(MemShelf::new(files, Vec::new(alloc)))
}

/// Whether this is told of a log that is judged by a script, over a shelf that has nothing else.
pub fn judges<R: Threads + Sync>(
    rt: &R,
    alloc: Global,
    script: &[u8],
    log: &str,
    wanted: &str,
) -> Result<bool, AllocError> {
    let mut shelf = scene_shelf(alloc, script)?;
    let told = told_over(rt, alloc, log_row(log.as_bytes()), &mut shelf)?;
    Ok(told.bytes() == wanted.as_bytes())
}

/// Whether a log is lawful for a script.
pub fn is_lawful<R: Threads + Sync>(
    rt: &R,
    alloc: Global,
    script: &[u8],
    log: &[u8],
) -> Result<bool, AllocError> {
    let mut shelf = scene_shelf(alloc, script)?;
    let told = told_over(rt, alloc, log_row(log), &mut shelf)?;
    Ok(told.bytes().starts_with(b"lawful ") && told.bytes().ends_with(b"exit 0\n"))
}

// The first row that is judged otherwise. Empty where none is.
fn misjudged<R: Threads + Sync>(rt: &R, alloc: Global) -> Result<&'static str, AllocError> {
    for row in LOGS.split("==\n") {
        let (log, wanted) = row.split_once("--\n").unwrap_or((row, ""));
        if !judges(rt, alloc, SCENE.as_bytes(), log, wanted)? {
            return Ok(row);
        }
    }
    Ok("")
}

#[test]
fn logs(rt: HostRuntime) -> Result<(), Fail> {
    assert_eq!(rt; misjudged(&rt, rt.alloc())?, "");
    Ok(())
}

// Whether a shelf without the script is a read fault.
fn lacks_script<R: Threads + Sync>(rt: &R, alloc: Global) -> Result<bool, AllocError> {
    let mut none = MemShelf::new(Vec::new(alloc), Vec::new(alloc));
    let told = told_over(rt, alloc, log_row(FIRST.as_bytes()), &mut none)?;
    Ok(told.bytes() == READ_FAULT.as_bytes())
}

// Whether the second read's fault is told.
fn tells_read_fault<R: Threads + Sync>(rt: &R, alloc: Global) -> Result<bool, AllocError> {
    let row = Row {
        read_fails: 2,
        ..log_row(FIRST.as_bytes())
    };
    let told = told_with(rt, alloc, row, SCENE.as_bytes())?;
    Ok(told.bytes() == READ_FAULT.as_bytes())
}

// Whether the first write's fault is told.
fn tells_write_fault<R: Threads + Sync>(rt: &R, alloc: Global) -> Result<bool, AllocError> {
    let row = Row {
        write_fails: 1,
        ..log_row(FIRST.as_bytes())
    };
    let told = told_with(rt, alloc, row, SCENE.as_bytes())?;
    Ok(is_cut_short(told.bytes(), "lawful 3\n"))
}

#[test]
fn devices(rt: HostRuntime) -> Result<(), Fail> {
    assert!(rt; lacks_script(&rt, rt.alloc())?, "no script");
    assert!(rt; tells_read_fault(&rt, rt.alloc())?, "a read fails");
    assert!(rt; tells_write_fault(&rt, rt.alloc())?, "a write fails");
    Ok(())
}
