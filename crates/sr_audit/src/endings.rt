ghost use Rattle.std.specs.Prelude.{◌≡◌, ◌||◌, ℕ, List, IfOk, OnOk, reverse};
ghost use Rattle.std.specs.BTreeMap.{get};
ghost use Rattle.std.specs.List.{list_any};
ghost use Rattle.std.specs.List.Sorted.{IsNonDecreasingBy};
ghost use Rattle.std.specs.Ordering.{nat_cmp};
ghost use Rattle.sr_base.specs.Key.{KeyView, IsKey, packed};
ghost use Rattle.sr_law.specs.Retire.{endings_of, may_end};
ghost use Rattle.sr_law.specs.declared.line.Line.{Line as ALine};
ghost use Rattle.sr_audit.specs.Endings.{AreEndingsOf, AreEntered, IsAtUnentered, ListsEndings, TellsEndings, ends_after, is_after};

use sr_base::{Key, Kind, key_ranges};
use sr_law::Line;
use std::alloc::{AllocError, Global};
use std::collections::BTreeMap;

// An Ending packet: whose it is, when it entered, and when it was out.
#[derive(Clone, Copy)]
pub(crate) struct Ending {
    key: Key,
    entered: u64,
    out: u64,
}

// The Ending packets of these lines.
fn endings_of(alloc: Global, lines: &[Line]) -> Result<Vec<Ending>, AllocError>
    ensures { IfOk result (λ endings. AreEndingsOf endings.items (reverse lines.now)) }
{
    let mut endings = Vec::new(alloc);
    for line in lines {
        if let Line::Packet {
            entered,
            out,
            key,
            kind: Kind::Ending,
            ..
        } = *line
        {
            endings.push(Ending { key, entered, out })?;
        }
    }
    Ok(endings)
}

// The Ending packets of all lines, in the order in which they entered; and of those that a cursor has passed, the tick at which the last
// of each connection was out.
#[derive(Drop)]
pub(crate) struct Endings {
    list: Vec<Ending>,
    last: BTreeMap<u64, u64>,
    next: usize,
}

impl Endings {
    // Of these lines, with the cursor at the first packet.
    pub(crate) fn of(alloc: Global, lines: &[Line]) -> Result<Endings, AllocError>
        ensures lists { IfOk result (λ endings. ListsEndings endings (reverse lines.now)) }
        ensures entered { IfOk result (λ endings. (tick : ℕ) → AreEntered endings tick) }
    {
        let mut list = endings_of(alloc, lines)?;
        list.sort_by_key(|ending| ending.entered)?;
        Ok(Endings {
            list,
            last: BTreeMap::new(alloc),
            next: 0,
        })
    }

    // A packet that ends this connection was out after this tick.
    fn is_after(&self, c: Key, tick: u64) -> bool
        ensures { result ≡ is_after tick (get nat_cmp self.now.last (packed c)) }
    {
        match self.last.get(&c.pack()) {
            Some(last) => tick < *last,
            None => false,
        }
    }

    // The packet at the cursor is one of them.
    fn take(&mut self, ending: Ending) -> Result<(), AllocError>
        ensures each { OnOk result ((c : KeyView) → IsKey c → (tick : ℕ)
            → is_after tick (get nat_cmp self.new.last (packed c))
            ≡ (is_after tick (get nat_cmp self.old.last (packed c)) || ends_after c tick ending)) }
        ensures list { OnOk result (self.new.list ≡ self.old.list) }
        ensures next { OnOk result (self.new.next ≡ self.old.next) }
    {
        let key = ending.key;
        key_ranges(key);
        if !self.is_after(key, ending.out) {
            self.last.insert(key.pack(), ending.out)?;
        }
        Ok(())
    }

    // The cursor goes on past the packets that entered before this tick.
    pub(crate) fn advance(&mut self, tick: u64) -> Result<(), AllocError>
        ensures lists { OnOk result ((all : List ALine) → ListsEndings self.old all → ListsEndings self.new all) }
        ensures entered { OnOk result (AreEntered self.old tick → AreEntered self.new tick) }
        ensures stops { OnOk result (IsAtUnentered self.new tick) }
    {
        for i in self.next..self.list.len() {
            let ending = self.list[i];
            if tick <= ending.entered {
                return Ok(());
            }
            self.take(ending)?;
            self.next = i + 1;
        }
        Ok(())
    }

    // Whether an Ending packet that entered before the tick ends this connection: one that was out after the tick at which the connection
    // was last retired.
    pub(crate) fn end(&self, c: Key, retired: u64) -> bool
        ensures { (all : List ALine) (tick : ℕ) → TellsEndings self.now all tick
            → result ≡ list_any (may_end c retired tick) (endings_of all) }
    {
        key_ranges(c);
        self.is_after(c, retired)
    }
}
