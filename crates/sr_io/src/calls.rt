ghost use Rattle.std.specs.Prelude.{◌≡◌, ◌≤◌};

use std::marker::Model;

/// The calls on an object in memory, of which some are to fail.
#[derive(Drop)]
pub struct Calls {
    fails: Vec<u64>,
    made: u64,
    faults: u64,
}

impl Model for Calls {
    ghost use Rattle.sr_io.specs.Calls.{CallsView};

    ghost Value = { CallsView };

    ghost view = { λ c. record { fails = c.fails.items; made = c.made; faults = c.faults } };
}

impl Calls {
    ghost use Rattle.sr_io.specs.Calls.{fails_next, after_call, after_fault, faulted};
    ghost use Rattle.std.specs.Prelude.{if◌then◌else◌};

    /// No call was made; those with these numbers, from 1, are to fail.
    pub fn new(fails: Vec<u64>) -> Calls
        ensures { result ≡ record { fails = fails.items; made = 0; faults = 0 } }
    {
        Calls {
            fails,
            made: 0,
            faults: 0,
        }
    }

    /// Counts the call that begins, and its fault if it is to fail: whether it is.
    pub fn fails_now(&mut self) -> bool
        ensures answer { result ≡ fails_next self.old }
        ensures counted { self.new ≡ (if result then after_fault self.old else after_call self.old) }
        ensures rises { self.old.faults ≤ self.new.faults }
    {
        self.made = self.made.saturating_add(1);
        let fails = self.fails.contains(&self.made);
        if fails {
            self.fault();
        }
        fails
    }

    /// Counts a fault of the call that was counted last.
    pub fn fault(&mut self)
        ensures counted { self.new ≡ faulted self.old }
        ensures rises { self.old.faults ≤ self.new.faults }
    {
        self.faults = self.faults.saturating_add(1);
    }
}
