ghost use Rattle.std.specs.Prelude.{◌≡◌, ◌≤◌, IfOk, length, reverse, []};
ghost use Rattle.sr_law.specs.Pools.{gives_to};
ghost use Rattle.sr_law.specs.Settled.{due_gives, is_due};

use sr_base::{Change, What};
use std::alloc::{AllocError, Global};
use std::marker::Model;

// A change that gives a pool: its position in the script, from 0, its virtual address, and the pool's number.
#[derive(Drop)]
pub(crate) struct Due {
    pub(crate) position: usize,
    pub(crate) vip: u8,
    pub(crate) pool: u64,
}

impl Model for Due {
    ghost use Rattle.sr_law.specs.Settled.{DueGive};

    ghost Value = { DueGive };

    ghost view = { λ d. record { position = d.position; vip = d.vip; pool = d.pool } };
}

// A change at this time is due.
pub(crate) fn is_due(clock: Option<u64>, at_ms: u64) -> bool
    ensures { result ≡ is_due clock at_ms }
{
    match clock {
        Some(clock) => at_ms <= clock,
        None => false,
    }
}

// How many of these changes give a pool to this virtual address.
#[tactic(auto, using(sr_law::proofs::Newest::newest_more))]
fn count_gives(changes: &[Change], vip: u8) -> usize
    ensures value { result ≡ length (gives_to vip (reverse changes.now)) }
    ensures few { result ≤ length changes.now }
{
    let mut count = 0;
    for change in changes {
        if let What::Give { vip: to, .. } = &change.what {
            if *to == vip {
                count += 1;
            }
        }
    }
    count
}

// The changes that give a pool and are due, in the script's order.
pub(crate) fn due_gives(
    alloc: Global,
    clock: Option<u64>,
    changes: &[Change],
) -> Result<Vec<Due>, AllocError>
    ensures { IfOk result (λ dues. dues.items ≡ due_gives clock [] 0 changes.now) }
{
    let mut dues = Vec::new(alloc);
    for position in 0..changes.len() {
        let change = &changes[position];
        if let What::Give { vip, .. } = &change.what {
            if is_due(clock, change.at_ms) {
                let pool = 2 + count_gives(&changes[..position], *vip) as u64;
                dues.push(Due {
                    position,
                    vip: *vip,
                    pool,
                })?;
            }
        }
    }
    Ok(dues)
}
