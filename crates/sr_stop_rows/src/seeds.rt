//! A seed picks who acts next over narrow tables, and each list is judged.

use crate::play::{RING_OF_ONE, played};
use crate::scene::judged;
use std::alloc::Global;
use std::test::Fail;

// Whether the lines of the run that a seed picks are lawful.
fn is_lawful_by(alloc: Global, seed: u64) -> Result<bool, Fail> {
    let play = played(alloc, seed, 1_500)?;
    judged(alloc, RING_OF_ONE, play.packets.as_slice(), &play.core)
}

#[test]
fn seeds_pick_lawful_runs(rt: HostRuntime) -> Result<(), Fail> {
    for seed in 1..101 {
        assert!(rt; is_lawful_by(rt.alloc(), seed)?, "seed {seed}");
    }
    Ok(())
}
