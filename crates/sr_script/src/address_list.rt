ghost use Rattle.std.specs.Prelude.{◌≡◌, List, [], ◌∷◌, ◌++◌, length, vec_len, IfOk, OnErr};
ghost use Rattle.std.specs.List.{list_any};
ghost use Rattle.sr_script.specs.Spelled.{same_address};

use std::alloc::{AllocError, Global};
use std::collections::BTreeSet;
use std::marker::Model;

/// Addresses and ports in the order in which they came. A set beside the list finds one among many without a walk through all of them.
#[derive(Drop)]
pub struct AddressList {
    list: Vec<(u32, u16)>,
    set: BTreeSet<(u32, u16)>,
}

impl Model for AddressList {
    ghost use Rattle.std.specs.Prelude.{List};
    ghost use Rattle.sr_script.specs.AddressList.{HasSame};
    ghost use Rattle.sr_script.specs.Spelled.{Address};

    ghost Value = { List Address };

    ghost view = { λ a. a.list.items };

    ghost invariant = { λ a. HasSame a.list.items a.set };
}

impl AddressList {
    /// No addresses.
    pub fn new(alloc: Global) -> AddressList
        ensures { result ≡ [] }
    {
        AddressList {
            list: Vec::new(alloc),
            set: BTreeSet::new(alloc),
        }
    }

    /// How many there are.
    pub fn len(&self) -> usize
        ensures { result ≡ length self.now }
    {
        self.list.len()
    }

    /// Whether an address is among them.
    pub fn contains(&self, address: &(u32, u16)) -> bool
        ensures { result ≡ list_any (λ b. same_address b address.now) self.now }
    {
        self.set.contains(address)
    }

    /// Adds an address at the end. Without memory all stays as it was.
    pub fn push(&mut self, address: (u32, u16)) -> Result<(), AllocError>
        ensures ok { IfOk result (λ _. self.new ≡ self.old ++ address ∷ []) }
        ensures err { OnErr result (self.new ≡ self.old) }
    {
        self.list.reserve(1)?;
        self.set.insert(address)?;
        match self.list.push(address) {
            Ok(()) => Ok(()),
            Err(_) => unreachable!(),
        }
    }

    /// The list alone.
    pub fn into_list(self) -> Vec<(u32, u16)>
        ensures items { result.items ≡ self }
        ensures len { vec_len result ≡ length self }
    {
        self.list
    }
}
