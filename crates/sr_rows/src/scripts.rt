//! Scripts that are refused, as the command `audit` tells them.
use crate::audit::{SCENE, judges};
use crate::play::FIRST;
use std::alloc::{AllocError, Global};
use std::test::Fail;
use std::thread::Threads;

// What stands in the scene, after `--` what is put in its place, and after another what is told.
const REFUSALS: &str = "pool = [0]
--
pool = [2]
--
exit 2 silkroad: script: no-such-server vip[0].pool[0]
==
pool = [0]
--
pool = []
--
exit 2 silkroad: script: empty-pool vip[0].pool
==
ring = 8
--
ring = 0
--
exit 2 silkroad: script: out-of-range shape.ring
==
[[vip]]
addr = \"192.0.2.1:80\"
pool = [0]
--
--
exit 2 silkroad: script: missing vip
";

const NOT_TOML: &str = "exit 2 silkroad: script: not-toml\n";

const TOO_LONG: &str = "exit 2 silkroad: script: text-too-long\n";

/// The scene with one text put in the place of another.
pub fn scene_with(alloc: Global, old: &str, new: &str) -> Result<Vec<u8>, AllocError> {
    let (front, back) = SCENE.split_once(old).unwrap_or(("", ""));
    let mut script = Vec::from_slice(alloc, front.as_bytes())?;
    script.extend_from_slice(new.as_bytes())?;
    script.extend_from_slice(back.as_bytes())?;
    Ok(script)
}

// Whether a row is refused so.
fn is_refused_so<R: Threads + Sync>(rt: &R, alloc: Global, row: &str) -> Result<bool, AllocError> {
    let (old, rest) = row.split_once("--\n").unwrap_or((row, ""));
    let (new, wanted) = rest.split_once("--\n").unwrap_or((rest, ""));
    let script = scene_with(alloc, old, new)?;
    judges(rt, alloc, &script, FIRST, wanted)
}

// The first row that isn't refused so. Empty where each is.
fn misjudged<R: Threads + Sync>(rt: &R, alloc: Global) -> Result<&'static str, AllocError> {
    for row in REFUSALS.split("==\n") {
        if !is_refused_so(rt, alloc, row)? {
            return Ok(row);
        }
    }
    Ok("")
}

// Whether a script of one byte more than there may be is refused.
fn refuses_too_long<R: Threads + Sync>(rt: &R, alloc: Global) -> Result<bool, AllocError> {
    let script = vec![in alloc; b'\n'; 1_048_577]?;
    judges(rt, alloc, &script, FIRST, TOO_LONG)
}

#[test]
fn refused(rt: HostRuntime) -> Result<(), Fail> {
    assert_eq!(rt; misjudged(&rt, rt.alloc())?, "");
    assert!(rt; judges(&rt, rt.alloc(), b"=", FIRST, NOT_TOML)?, "not TOML");
    assert!(rt; refuses_too_long(&rt, rt.alloc())?, "too long");
    Ok(())
}
