//! Demonstrations over small captures: a tenth of the packets open a connection, and a change comes due with packet 15,001.
use crate::{Demonstration, demonstrate};
use sr_io::OpenGate;
use std::alloc::{AllocError, Global};
use std::test::Fail;
use std::thread::Threads;

// What a demonstration over so many packets counts, if it ends with nothing waited for.
fn counts<R: Threads + Sync>(
    rt: &R,
    alloc: Global,
    number: u64,
    packets: u32,
) -> Result<Option<(usize, usize, usize)>, AllocError> {
    if packets == 0 || packets > 4_194_304 {
        return Ok(None);
    }
    let Demonstration {
        packets,
        opened,
        switched,
        awaited,
    } = demonstrate(rt, alloc, number, packets, &OpenGate)?;
    match awaited {
        None => Ok(Some((packets, opened, switched))),
        Some(_) => Ok(None),
    }
}

#[test]
fn small(rt: HostRuntime) -> Result<(), Fail> {
    assert_eq!(rt; counts(&rt, rt.alloc(), 1, 1)?, Some((1, 1, 0)));
    assert_eq!(rt; counts(&rt, rt.alloc(), 1, 2000)?, Some((2000, 200, 0)));
    Ok(())
}
