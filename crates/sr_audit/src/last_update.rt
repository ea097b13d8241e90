ghost use Rattle.std.specs.Prelude.{◌≡◌, List, [], ◌∷◌, length};
ghost use Rattle.sr_law.specs.Groups.{after_gives, last_of_update};
ghost use Rattle.sr_law.specs.declared.line.Line.{Line as ALine};
ghost use Rattle.sr_audit.specs.LastUpdate.{TellsUpdate};

use sr_law::{Line, is_of_update};

// The last line of an update, after the first lines, of which there is one for each virtual address.
#[derive(Drop)]
pub(crate) struct LastUpdate {
    vips: usize,
    line: Option<Line>,
}

impl LastUpdate {
    // Of no lines.
    pub(crate) fn new(vips: usize) -> LastUpdate
        ensures tells { TellsUpdate result [] }
        ensures vips { result.vips ≡ vips }
    {
        LastUpdate { vips, line: None }
    }

    // One line more, the one of this number, from 0.
    pub(crate) fn absorb(&mut self, number: usize, line: &Line)
        ensures kept { (before : List ALine) → length before ≡ number → TellsUpdate self.old before
            → TellsUpdate self.new (line.now ∷ before) }
        ensures vips { self.new.vips ≡ self.old.vips }
    {
        if self.vips <= number && is_of_update(line) {
            self.line = Some(*line);
        }
    }

    // The last one.
    pub(crate) fn last(&self) -> Option<Line>
        ensures { (before : List ALine) → TellsUpdate self.now before
            → result ≡ last_of_update (after_gives self.now.vips before) }
    {
        self.line
    }
}
