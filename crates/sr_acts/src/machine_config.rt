ghost use Rattle.std.specs.Prelude.{◌≡◌};

use sr_base::{Change, Layout};
use sr_law::Pools;
use std::marker::Model;

/// What a machine is made for: how many words there are, the pools of each virtual address by number, and the changes that it is to
/// make.
#[derive(Drop)]
pub struct MachineConfig {
    layout: Layout,
    pools: Pools,
    changes: Vec<Change>,
}

impl Model for MachineConfig {
    ghost use Rattle.sr_machine.specs.Config.{Config};
    ghost use Rattle.sr_acts.specs.Config.{IsFitting};

    ghost Value = { Config };

    ghost view = { λ k. record { layout = k.layout; pools = k.pools; changes = k.changes.items } };

    ghost invariant = { λ k. IsFitting (record { layout = k.layout; pools = k.pools; changes = k.changes.items }) };
}

impl MachineConfig {
    ghost use Rattle.sr_acts.specs.Config.{IsFitting};

    /// That of a layout, of the pools that first ones and changes make, and of these changes. They fit the layout.
    pub fn new(layout: &Layout, pools: Pools, changes: Vec<Change>) -> MachineConfig
        requires { IsFitting (record { layout = layout.now; pools = pools; changes = changes.items }) }
        ensures { result ≡ record { layout = layout.now; pools = pools; changes = changes.items } }
    {
        MachineConfig {
            layout: *layout,
            pools,
            changes,
        }
    }

    /// How many words there are.
    pub fn layout(&self) -> &Layout
        ensures { result.now ≡ self.now.layout }
    {
        &self.layout
    }

    /// The pools of each virtual address by number.
    pub fn pools(&self) -> &Pools
        ensures { result.now ≡ self.now.pools }
    {
        &self.pools
    }

    /// The changes, in order.
    pub fn changes(&self) -> &[Change]
        ensures { result.now ≡ self.now.changes }
    {
        self.changes.as_slice()
    }

    /// What it is made for fits together.
    pub fn fits(&self)
        ensures { IsFitting self.now }
    {
        let _ = &self.layout;
    }
}
