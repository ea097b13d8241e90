ghost use Rattle.std.specs.Prelude.{◌≡◌, ◌-◌, ◌<◌, ◌≤◌, ◌∷◌, ◌++◌, [], drop, slice_get, OnOk, option_map};

use sr_machine::HeldOpener;
use std::alloc::{AllocError, Global};
use std::marker::Model;

/// The held openers that aren't answered, in order.
#[derive(Drop)]
pub struct HeldOpeners {
    openers: Vec<HeldOpener>,
    answered: usize,
}

impl Model for HeldOpeners {
    ghost use Rattle.std.specs.Prelude.{◌-◌, ◌≤◌, drop, vec_capacity, vec_len};
    ghost use Rattle.sr_acts.specs.Openers.{Openers};

    ghost Value = { Openers };

    ghost view = { λ h. record {
      openers = drop h.answered h.openers.items;
      room = vec_capacity h.openers - vec_len h.openers;
    } };

    ghost invariant = { λ h. h.answered ≤ vec_len h.openers };
}

impl HeldOpeners {
    /// None.
    pub fn new(alloc: Global) -> HeldOpeners
        ensures { result.openers ≡ [] }
    {
        HeldOpeners {
            openers: Vec::new(alloc),
            answered: 0,
        }
    }

    /// Makes room for at least so many more.
    pub fn reserve(&mut self, openers: usize) -> Result<(), AllocError>
        ensures openers { self.new.openers ≡ self.old.openers }
        ensures room { OnOk result (openers ≤ self.new.room) }
        ensures kept { self.old.room ≤ self.new.room }
    {
        self.openers.reserve(openers)
    }

    /// The first one.
    pub fn first(&self) -> Option<HeldOpener>
        ensures { result ≡ slice_get self.now.openers 0 }
    {
        if self.answered < self.openers.len() {
            Some(self.openers[self.answered])
        } else {
            None
        }
    }

    /// The first one is answered; where there is none nothing changes.
    pub fn drop_first(&mut self)
        ensures openers { self.new.openers ≡ drop 1 self.old.openers }
        ensures room { self.new.room ≡ self.old.room }
    {
        if self.answered < self.openers.len() {
            self.answered += 1;
        }
    }

    /// One more is held.
    pub fn push(&mut self, opener: HeldOpener)
        requires { 0 < self.old.room }
        ensures openers { self.new.openers ≡ self.old.openers ++ opener ∷ [] }
        ensures room { self.new.room ≡ self.old.room - 1 }
    {
        self.openers.push_reserved(opener);
    }
}
