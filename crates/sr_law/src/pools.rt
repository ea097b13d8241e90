ghost use Rattle.std.specs.Prelude.{◌≡◌, IfOk, option_map, length};
ghost use Rattle.sr_law.specs.Pools.{pool_of, pools_from, server_of};

use crate::own_pools::OwnPools;
use sr_base::{Change, Key, Pool};
use sr_hash::select;
use std::alloc::{AllocError, Global};
use std::marker::Model;

/// The pools of every virtual address, by number. Pool 1 is the one that it begins with, pool K + 1 that of its K-th change in the script,
/// whatever becomes of that change.
#[derive(Debug, Drop)]
pub struct Pools {
    vips: Vec<OwnPools>,
}

impl Model for Pools {
    ghost use Rattle.std.specs.Prelude.{List};
    ghost use Rattle.sr_law.specs.Pools.{VipPools};

    ghost Value = { List VipPools };

    ghost view = { λ p. p.vips.items };
}

impl Pools {
    /// The pools of these first ones and these changes, a first pool for each virtual address in order.
    pub fn new(alloc: Global, first: &[Pool], changes: &[Change]) -> Result<Pools, AllocError>
        ensures { IfOk result (λ p. p ≡ pools_from 0 first.now changes.now) }
    {
        let mut vips = Vec::new(alloc);
        for vip in 0..first.len() {
            vips.push(OwnPools::new(alloc, vip, &first[vip], changes)?)?;
        }
        Ok(Pools { vips })
    }

    /// The pool of this virtual address and number. None where there is no such virtual address, or it has no pool of this number.
    pub fn of(&self, vip: u8, pool: u64) -> Option<&Pool>
        ensures { option_map (λ p. p.now) result ≡ pool_of self.now vip pool }
    {
        match self.vips.get(vip as usize) {
            Some(own) => own.numbered(pool),
            None => None,
        }
    }

    /// How many virtual addresses there are.
    pub fn vips(&self) -> usize
        ensures { result ≡ length self.now }
    {
        self.vips.len()
    }

    /// The server that the key's hash picks from the pool of this number of its virtual address. None where there is no such pool.
    pub fn server(&self, pool: u64, key: Key) -> Option<u32>
        ensures { result ≡ server_of self.now pool key }
    {
        let pool = self.of(key.vip, pool)?;
        Some(pool.at(select(pool.size(), key)))
    }
}
