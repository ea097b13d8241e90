ghost use Rattle.std.specs.Prelude.{◌≡◌, List, [], OnOk};
ghost use Rattle.sr_law.specs.Retire.{numbered_sweep};
ghost use Rattle.sr_law.specs.declared.line.Line.{Line as ALine};
ghost use Rattle.sr_audit.specs.Index.{KeptWith};
ghost use Rattle.sr_audit.specs.Numbered.{TellsSweeps};

use sr_law::{Line, Sweep};
use std::alloc::{AllocError, Global};
use std::collections::BTreeMap;

// The sweeps, by their numbers.
#[derive(Drop)]
pub(crate) struct Sweeps {
    map: BTreeMap<u64, Sweep>,
}

impl Sweeps {
    // Of no lines.
    pub(crate) fn new(alloc: Global) -> Sweeps
        ensures { TellsSweeps result [] }
    {
        Sweeps {
            map: BTreeMap::new(alloc),
        }
    }

    // One line more.
    pub(crate) fn absorb(&mut self, line: &Line) -> Result<(), AllocError>
        ensures { OnOk result (KeptWith TellsSweeps self.old self.new line.now) }
    {
        if let Line::Swept {
            number,
            from,
            to,
            at_ms,
        } = *line
        {
            let sweep = Sweep {
                number,
                from,
                to,
                at_ms,
            };
            self.map.insert(number, sweep)?;
        }
        Ok(())
    }

    // The one of this number.
    pub(crate) fn numbered(&self, number: u64) -> Option<Sweep>
        ensures { (before : List ALine) → TellsSweeps self.now before → result ≡ numbered_sweep before number }
    {
        self.map.get(&number).copied()
    }
}
