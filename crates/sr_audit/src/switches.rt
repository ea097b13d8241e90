ghost use Rattle.std.specs.Prelude.{◌≡◌, List, [], OnOk, reverse};
ghost use Rattle.sr_law.specs.Newer.{last_switched};
ghost use Rattle.sr_law.specs.declared.line.Line.{Line as ALine};
ghost use Rattle.sr_audit.specs.Index.{KeptWith};
ghost use Rattle.sr_audit.specs.Switches.{is_before, pool_before, TellsSwitches};

use sr_law::Line;
use std::alloc::{AllocError, Global};

// A switch of a virtual address to a pool.
#[derive(Clone, Copy)]
pub(crate) struct Switch {
    out: u64,
    vip: u8,
    pool: u64,
}

impl Switch {
    // It is one of this virtual address, before this tick.
    fn is_before(&self, vip: u8, tick: u64) -> bool
        ensures { result ≡ is_before vip tick self.now }
    {
        self.vip == vip && self.out < tick
    }
}

// The pool of the last switch of a virtual address before a tick.
fn pool_before(switches: &[Switch], vip: u8, tick: u64) -> Option<u64>
    ensures { result ≡ pool_before (reverse switches.now) vip tick }
{
    switches
        .iter()
        .rev()
        .find(|switch| switch.is_before(vip, tick))
        .map(|switch| switch.pool)
}

// The switches of virtual addresses to pools, in order.
#[derive(Drop)]
pub(crate) struct Switches {
    list: Vec<Switch>,
}

impl Switches {
    // Of no lines.
    pub(crate) fn new(alloc: Global) -> Switches
        ensures { TellsSwitches result [] }
    {
        Switches {
            list: Vec::new(alloc),
        }
    }

    // One line more.
    #[tactic(auto, using(crate::proofs::Alone::switch_more))]
    pub(crate) fn absorb(&mut self, line: &Line) -> Result<(), AllocError>
        ensures { OnOk result (KeptWith TellsSwitches self.old self.new line.now) }
    {
        if let Line::Switched { out, vip, pool } = *line {
            self.list.push(Switch { out, vip, pool })?;
        }
        Ok(())
    }

    // The pool that a virtual address was last switched to before this tick.
    pub(crate) fn last(&self, vip: u8, tick: u64) -> Option<u64>
        ensures { (before : List ALine) → TellsSwitches self.now before → result ≡ last_switched before vip tick }
    {
        pool_before(&self.list, vip, tick)
    }
}
