ghost use Rattle.std.specs.Prelude.{◌≡◌, List, []};
ghost use Rattle.sr_law.specs.Retire.{last_sweep, is_next_sweep};
ghost use Rattle.sr_law.specs.declared.line.Line.{Line as ALine};
ghost use Rattle.sr_audit.specs.Index.{KeptWith};
ghost use Rattle.sr_audit.specs.LastSweep.{TellsSweep};

use sr_law::{Line, Sweep};

// The last sweep.
#[derive(Drop)]
pub(crate) struct LastSweep {
    sweep: Option<Sweep>,
}

impl LastSweep {
    // Of no lines.
    pub(crate) fn new() -> LastSweep
        ensures { TellsSweep result [] }
    {
        LastSweep { sweep: None }
    }

    // One line more.
    pub(crate) fn absorb(&mut self, line: &Line)
        ensures { KeptWith TellsSweep self.old self.new line.now }
    {
        if let Line::Swept {
            number,
            from,
            to,
            at_ms,
        } = *line
        {
            self.sweep = Some(Sweep {
                number,
                from,
                to,
                at_ms,
            });
        }
    }

    // It, if there is one.
    pub(crate) fn last(&self) -> Option<Sweep>
        ensures { (before : List ALine) → TellsSweep self.now before → result ≡ last_sweep before }
    {
        self.sweep
    }

    // Whether a sweep of this number and capture time may come next, after at least so many milliseconds.
    pub(crate) fn is_next(&self, idle_ms: u64, number: u64, at_ms: u64) -> bool
        ensures { (before : List ALine) → TellsSweep self.now before
            → result ≡ is_next_sweep idle_ms number at_ms (last_sweep before) }
    {
        match self.sweep {
            Some(last) => {
                0 < number
                    && number - 1 == last.number
                    && last.at_ms <= at_ms
                    && idle_ms <= at_ms - last.at_ms
            }
            None => number == 1 && idle_ms <= at_ms,
        }
    }
}
