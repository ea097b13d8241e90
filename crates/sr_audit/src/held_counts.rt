ghost use Rattle.std.specs.Prelude.{◌≡◌, ◌<◌, ◌∷◌, List, [], OnOk, length};
ghost use Rattle.sr_law.specs.Full.{held_count};
ghost use Rattle.sr_law.specs.declared.line.Line.{Line as ALine};
ghost use Rattle.sr_audit.specs.HeldCounts.{TellsHeld};

use sr_law::{Line, Verdict};
use std::alloc::{AllocError, Global};
use std::collections::BTreeMap;

// How many openers each pipe held.
#[derive(Drop)]
pub(crate) struct HeldCounts {
    map: BTreeMap<u8, u64>,
}

impl HeldCounts {
    // Of no lines.
    pub(crate) fn new(alloc: Global) -> HeldCounts
        ensures { TellsHeld result [] }
    {
        HeldCounts {
            map: BTreeMap::new(alloc),
        }
    }

    // One line more, the one of this number, from 0.
    #[tactic(auto, using(crate::proofs::Answering::held_few))]
    pub(crate) fn absorb(&mut self, number: usize, line: &Line) -> Result<(), AllocError>
        requires { number < usize.MAX }
        ensures { OnOk result ((before : List ALine) → length before ≡ number
            → TellsHeld self.old before
            → TellsHeld self.new (line.now ∷ before)) }
    {
        if let Line::Packet {
            pipe,
            verdict: Verdict::Held(_),
            ..
        } = *line
        {
            let count = self.count(pipe);
            self.map.insert(pipe, count.saturating_add(1))?;
        }
        Ok(())
    }

    // How many this one held.
    pub(crate) fn count(&self, pipe: u8) -> u64
        ensures { (before : List ALine) → TellsHeld self.now before → result ≡ held_count pipe before }
    {
        self.map.get(&pipe).copied().unwrap_or(0)
    }
}
