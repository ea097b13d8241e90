ghost use Rattle.std.specs.Prelude.{◌≡◌, ◌≤◌, ◌||◌, ◌∷◌, ℕ, List, [], OnOk, Some, reverse};
ghost use Rattle.std.specs.BTreeMap.{get};
ghost use Rattle.std.specs.List.{list_any};
ghost use Rattle.std.specs.Ordering.{nat_cmp};
ghost use Rattle.sr_base.specs.Key.{KeyView, IsKey, packed};
ghost use Rattle.sr_law.specs.Retire.{last_sweep, uses_between, uses_entry};
ghost use Rattle.sr_law.specs.declared.line.Line.{Line as ALine};
ghost use Rattle.sr_law.specs.declared.sweep.Sweep.{Sweep as ASweep};
ghost use Rattle.sr_audit.specs.Greatest.{reaches};
ghost use Rattle.sr_audit.specs.Lately.{Falls};
ghost use Rattle.sr_audit.specs.Used.{IsAtLater, IsUsedBy, SweepsRise, TellsUsed, uses_from};

use sr_base::{Key, Kind, key_ranges};
use sr_law::Line;
use std::alloc::{AllocError, Global};
use std::collections::BTreeMap;

// The packet uses a live entry.
fn uses_entry(kind: Kind) -> bool
    ensures { result ≡ uses_entry kind }
{
    match kind {
        Kind::Opener => false,
        _ => true,
    }
}

// When the last packet of each connection that used its entry entered, of the lines that were out when the last sweep began. A cursor
// stands at the first line that was out later.
#[derive(Drop)]
pub(crate) struct Used {
    map: BTreeMap<u64, u64>,
    next: usize,
}

impl Used {
    // Of no lines.
    pub(crate) fn new(alloc: Global) -> Used
        ensures { TellsUsed result [] }
    {
        Used {
            map: BTreeMap::new(alloc),
            next: 0,
        }
    }

    // Some packet of this connection used its entry at this tick or later.
    fn reaches(&self, c: Key, low: u64) -> bool
        ensures { result ≡ reaches low (get nat_cmp self.now.map (packed c)) }
    {
        match self.map.get(&c.pack()) {
            Some(entered) => low <= *entered,
            None => false,
        }
    }

    // The line at the cursor is one of them.
    fn take(&mut self, line: &Line) -> Result<(), AllocError>
        ensures each { OnOk result ((c : KeyView) → IsKey c → (low : ℕ)
            → reaches low (get nat_cmp self.new.map (packed c))
            ≡ (reaches low (get nat_cmp self.old.map (packed c)) || uses_from c low line.now)) }
        ensures next { OnOk result (self.new.next ≡ self.old.next) }
    {
        if let Line::Packet {
            entered,
            key,
            kind,
            ..
        } = *line
        {
            if uses_entry(kind) && !self.reaches(key, entered) {
                key_ranges(key);
                self.map.insert(key.pack(), entered)?;
            }
        }
        Ok(())
    }

    // The cursor goes on past the lines that were out at this tick or before.
    fn advance(&mut self, lines: &[Line], tick: u64) -> Result<(), AllocError>
        ensures used { OnOk result ((earlier : ℕ) → earlier ≤ tick → IsUsedBy self.old earlier lines.now
            → IsUsedBy self.new tick lines.now) }
        ensures stops { OnOk result (IsAtLater self.new.next tick lines.now) }
    {
        for i in self.next..lines.len() {
            let line = &lines[i];
            if tick < line.out() {
                return Ok(());
            }
            self.take(line)?;
            self.next = i + 1;
        }
        Ok(())
    }

    // One line more, after these.
    pub(crate) fn absorb(&mut self, before: &[Line], line: &Line) -> Result<(), AllocError>
        ensures { OnOk result (TellsUsed self.old (reverse before.now)
            → TellsUsed self.new (line.now ∷ reverse before.now)) }
    {
        if let Line::Swept { from, .. } = *line {
            self.advance(before, from)?;
        }
        Ok(())
    }

    // Whether some packet of this connection that was out when the last sweep began used its entry at this tick or later.
    pub(crate) fn is_used_since(&self, c: Key, low: u64) -> bool
        ensures { (before : List ALine) (last : ASweep) → Falls before → SweepsRise before
            → TellsUsed self.now before
            → last_sweep before ≡ Some last
            → result ≡ list_any (uses_between c low last.from) before }
    {
        key_ranges(c);
        self.reaches(c, low)
    }
}
