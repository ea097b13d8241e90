ghost use Rattle.std.specs.Prelude.{◌≡◌, ◌∷◌, ◌++◌, [], drop, slice_get, IfOk, OnOk};
ghost use Rattle.sr_machine.specs.Opening.{outages_in};

use sr_base::{Change, What};
use sr_machine::Outage;
use std::alloc::{AllocError, Global};
use std::marker::Model;

/// The servers that are still to be taken down, in order.
#[derive(Drop)]
pub struct Outages {
    outages: Vec<Outage>,
    made: usize,
}

impl Model for Outages {
    ghost use Rattle.std.specs.Prelude.{List, ◌≤◌, drop, vec_len};
    ghost use Rattle.sr_machine.specs.declared.outage.Outage.{Outage};

    ghost Value = { List Outage };

    ghost view = { λ o. drop o.made o.outages.items };

    ghost invariant = { λ o. o.made ≤ vec_len o.outages };
}

impl Outages {
    /// Those of a list of changes.
    pub fn new(alloc: Global, changes: &[Change]) -> Result<Outages, AllocError>
        ensures { IfOk result (λ o. o ≡ outages_in changes.now) }
    {
        let mut outages = Vec::new(alloc);
        for change in changes {
            note(&mut outages, change)?;
        }
        Ok(Outages { outages, made: 0 })
    }

    /// The first one.
    pub fn first(&self) -> Option<Outage>
        ensures { result ≡ slice_get self.now 0 }
    {
        if self.made < self.outages.len() {
            Some(self.outages[self.made])
        } else {
            None
        }
    }

    /// The first one was made; where there is none nothing changes.
    pub fn drop_first(&mut self)
        ensures { self.new ≡ drop 1 self.old }
    {
        if self.made < self.outages.len() {
            self.made += 1;
        }
    }
}

// Appends what a change takes down.
fn note(outages: &mut Vec<Outage>, change: &Change) -> Result<(), AllocError>
    ensures { OnOk result (outages.new.items ≡ outages.old.items ++ outages_in (change.now ∷ [])) }
{
    match &change.what {
        What::Give { .. } => {}
        What::TakeDown { server } => outages.push(Outage {
            at_ms: change.at_ms,
            server: *server,
        })?,
    }
    Ok(())
}
