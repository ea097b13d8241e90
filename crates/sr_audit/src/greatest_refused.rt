ghost use Rattle.std.specs.Prelude.{◌≡◌, List, []};
ghost use Rattle.std.specs.List.{list_any};
ghost use Rattle.sr_law.specs.Order.{refused_past};
ghost use Rattle.sr_law.specs.declared.line.Line.{Line as ALine};
ghost use Rattle.sr_audit.specs.Greatest.{reaches, TellsRefused};
ghost use Rattle.sr_audit.specs.Index.{KeptWith};

use sr_law::Line;

// The greatest position in the script of a change that was refused.
#[derive(Drop)]
pub(crate) struct GreatestRefused {
    change: Option<u32>,
}

impl GreatestRefused {
    // Of no lines.
    pub(crate) fn new() -> GreatestRefused
        ensures { TellsRefused result [] }
    {
        GreatestRefused { change: None }
    }

    // Whether it is this one or a later one.
    fn reaches(&self, change: u32) -> bool
        ensures { result ≡ reaches change self.now.change }
    {
        match self.change {
            Some(greatest) => change <= greatest,
            None => false,
        }
    }

    // One line more.
    pub(crate) fn absorb(&mut self, line: &Line)
        ensures { KeptWith TellsRefused self.old self.new line.now }
    {
        if let Line::Refused { change, .. } = *line {
            if !self.reaches(change) {
                self.change = Some(change);
            }
        }
    }

    // Whether this change, or a later one of the script, was refused.
    pub(crate) fn has_past(&self, change: u32) -> bool
        ensures { (before : List ALine) → TellsRefused self.now before → result ≡ list_any (refused_past change) before }
    {
        self.reaches(change)
    }
}
