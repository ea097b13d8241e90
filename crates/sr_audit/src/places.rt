ghost use Rattle.std.specs.Prelude.{◌≡◌, List, [], OnOk, None, Some, reverse};
ghost use Rattle.sr_law.specs.Taken.{taken, keeps_places};
ghost use Rattle.sr_law.specs.declared.line.Line.{Line as ALine};
ghost use Rattle.sr_audit.specs.Index.{KeptWith};
ghost use Rattle.sr_audit.specs.Places.{holder, SetsHolder, TellsPlaces};

use sr_base::Place;
use sr_law::{Line, Taking};
use std::alloc::{AllocError, Global};
use std::collections::BTreeMap;

// Who has each place of the tables.
#[derive(Drop)]
pub(crate) struct Places {
    slots: BTreeMap<(u8, u32, u8), Taking>,
    rows: BTreeMap<u32, Taking>,
}

impl Places {
    // Of no lines.
    pub(crate) fn new(alloc: Global) -> Places
        ensures { TellsPlaces result [] }
    {
        Places {
            slots: BTreeMap::new(alloc),
            rows: BTreeMap::new(alloc),
        }
    }

    // Who has this place.
    pub(crate) fn holder(&self, place: Place) -> Option<Taking>
        ensures { result ≡ holder self.now place }
    {
        match place {
            Place::Slot { way, bucket, cell } => self.slots.get(&(way, bucket, cell)).copied(),
            Place::Row { row } => self.rows.get(&row).copied(),
        }
    }

    // This place has this holder from now on.
    fn take(&mut self, place: Place, taking: Taking) -> Result<(), AllocError>
        ensures { OnOk result (SetsHolder self.old self.new place (Some taking)) }
    {
        match place {
            Place::Slot { way, bucket, cell } => {
                self.slots.insert((way, bucket, cell), taking)?;
                Ok(())
            }
            Place::Row { row } => {
                self.rows.insert(row, taking)?;
                Ok(())
            }
        }
    }

    // Nobody has this place from now on.
    fn free(&mut self, place: Place)
        ensures { SetsHolder self.old self.new place None }
    {
        match place {
            Place::Slot { way, bucket, cell } => {
                self.slots.remove(&(way, bucket, cell));
            }
            Place::Row { row } => {
                self.rows.remove(&row);
            }
        }
    }

    // One line more.
    pub(crate) fn absorb(&mut self, line: &Line) -> Result<(), AllocError>
        ensures { OnOk result (KeptWith TellsPlaces self.old self.new line.now) }
    {
        match *line {
            Line::Reserved { key, place, .. } => { self.take(place, Taking { key, placed: false }) }
            Line::Placed { place, .. } => match self.holder(place) {
                Some(taking) => {
                    let key = taking.key;
                    self.take(place, Taking { key, placed: true })
                }
                None => Ok(()),
            },
            Line::Cleared { place, .. } => {
                self.free(place);
                Ok(())
            }
            _ => Ok(()),
        }
    }

    // A place is reserved where nobody has it, and placed, once, and cleared by the key that has it.
    #[tactic(auto, unfolding(sr_law::specs::Taken::keeps_places))]
    pub(crate) fn keep(&self, line: &Line) -> bool
        ensures { (before : List ALine) → TellsPlaces self.now before → result ≡ keeps_places before line.now }
    {
        match *line {
            Line::Reserved { place, .. } => self.holder(place).is_none(),
            Line::Placed { key, place, .. } => match self.holder(place) {
                Some(taking) => taking.key.same(key) && !taking.placed,
                None => false,
            },
            Line::Cleared { key, place, .. } => match self.holder(place) {
                Some(taking) => taking.key.same(key),
                None => false,
            },
            _ => true,
        }
    }
}
