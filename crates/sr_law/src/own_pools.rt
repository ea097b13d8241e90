ghost use Rattle.std.specs.Prelude.{◌≡◌, IfOk, option_copied, option_map};
ghost use Rattle.sr_law.specs.Pools.{numbered, gives_to};

use sr_base::{Change, Pool, What};
use std::alloc::{AllocError, Global};
use std::marker::Model;

/// The pools of one virtual address.
#[derive(Debug, Drop)]
pub(crate) struct OwnPools {
    first: Pool,
    given: Vec<Pool>,
}

impl Model for OwnPools {
    ghost use Rattle.sr_law.specs.Pools.{VipPools};

    ghost Value = { VipPools };

    ghost view = { λ p. record { first = p.first; given = p.given.items } };
}

impl OwnPools {
    // A copy of its first pool, and one of each that the changes give it.
    pub(crate) fn new(
        alloc: Global,
        vip: usize,
        first: &Pool,
        changes: &[Change],
    ) -> Result<OwnPools, AllocError>
        ensures { IfOk result (λ p. p ≡ record { first = first.now; given = gives_to vip changes.now }) }
    {
        let first = copied(alloc, first)?;
        let given = gives(alloc, vip, changes)?;
        Ok(OwnPools { first, given })
    }

    // The pool of this number.
    pub(crate) fn numbered(&self, number: u64) -> Option<&Pool>
        ensures { option_map (λ p. p.now) result ≡ numbered self.now number }
    {
        if number == 0 {
            None
        } else if number == 1 {
            Some(&self.first)
        } else {
            self.given.get((number - 2) as usize)
        }
    }
}

// The pools that the changes give to a virtual address.
fn gives(alloc: Global, vip: usize, changes: &[Change]) -> Result<Vec<Pool>, AllocError>
    ensures { IfOk result (λ v. v.items ≡ gives_to vip changes.now) }
{
    let mut pools = Vec::new(alloc);
    for change in changes {
        match &change.what {
            What::Give { vip: to, pool } => {
                if *to as usize == vip {
                    pools.push(copied(alloc, pool)?)?;
                }
            }
            What::TakeDown { .. } => {}
        }
    }
    Ok(pools)
}

// A pool of the same servers.
fn copied(alloc: Global, pool: &Pool) -> Result<Pool, AllocError>
    ensures { IfOk result (λ p. p ≡ pool.now) }
{
    let size = pool.size();
    let mut servers = Vec::new(alloc);
    for i in 0..size {
        servers.push(pool.at(i))?;
    }
    match Pool::new(servers) {
        Some(copy) => Ok(copy),
        None => unreachable!(),
    }
}
