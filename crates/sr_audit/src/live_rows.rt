ghost use Rattle.std.specs.Prelude.{◌≡◌, ◌≤◌, List, [], OnOk};
ghost use Rattle.sr_law.specs.Rows.{is_group_full};
ghost use Rattle.sr_law.specs.declared.line.Line.{Line as ALine};
ghost use Rattle.sr_audit.specs.Index.{KeptWith};
ghost use Rattle.sr_audit.specs.LiveRows.{TellsRows};

use sr_base::{Key, Place, Shape};
use sr_hash::group;
use sr_law::Line;
use std::alloc::{AllocError, Global};
use std::collections::BTreeSet;

// The rows of the table of full keys at which an entry is live.
#[derive(Drop)]
pub(crate) struct LiveRows {
    set: BTreeSet<u32>,
}

impl LiveRows {
    // Of no lines.
    pub(crate) fn new(alloc: Global) -> LiveRows
        ensures { TellsRows result [] }
    {
        LiveRows {
            set: BTreeSet::new(alloc),
        }
    }

    // One line more.
    pub(crate) fn absorb(&mut self, line: &Line) -> Result<(), AllocError>
        ensures { OnOk result (KeptWith TellsRows self.old self.new line.now) }
    {
        match *line {
            Line::Placed {
                place: Place::Row { row },
                ..
            } => {
                self.set.insert(row)?;
            }
            Line::Cleared {
                place: Place::Row { row },
                ..
            } => {
                self.set.remove(&row);
            }
            _ => {}
        }
        Ok(())
    }

    // Whether an entry is live in each row of the key's group.
    #[tactic(auto, unfolding(sr_law::specs::Rows::is_group_full))]
    pub(crate) fn are_full(&self, shape: &Shape, key: Key) -> bool
        requires { 4 ≤ shape.now.full_rows }
        ensures { (before : List ALine) → TellsRows self.now before → result ≡ is_group_full shape.now before key }
    {
        let first = 4 * group(key, shape.full_rows);
        self.set.contains(&first)
            && self.set.contains(&(first + 1))
            && self.set.contains(&(first + 2))
            && self.set.contains(&(first + 3))
    }
}
