ghost use Rattle.std.specs.Prelude.{◌≡◌, ◌-◌, ◌<◌, ◌≤◌, ◌∷◌, ◌++◌, [], OnOk};

use sr_law::{Line, Verdict};
use std::alloc::{AllocError, Global};
use std::marker::Model;

// The lines that were written, in order.
#[derive(Drop)]
pub(crate) struct Written {
    lines: Vec<Line>,
}

impl Model for Written {
    ghost use Rattle.std.specs.Prelude.{◌-◌, vec_capacity, vec_len};
    ghost use Rattle.sr_acts.specs.HeldLines.{HeldLines};

    ghost Value = { HeldLines };

    ghost view = { λ w. record { lines = w.lines.items; room = vec_capacity w.lines - vec_len w.lines } };
}

impl Written {
    // None.
    pub(crate) fn new(alloc: Global) -> Written
        ensures { result.lines ≡ [] }
    {
        Written {
            lines: Vec::new(alloc),
        }
    }

    // Makes room for at least so many more.
    pub(crate) fn reserve(&mut self, lines: usize) -> Result<(), AllocError>
        ensures lines { self.new.lines ≡ self.old.lines }
        ensures room { OnOk result (lines ≤ self.new.room) }
        ensures kept { self.old.room ≤ self.new.room }
    {
        self.lines.reserve(lines)
    }

    // The lines.
    pub(crate) fn lines(&self) -> &[Line]
        ensures { result.now ≡ self.now.lines }
    {
        self.lines.as_slice()
    }

    // One more is written.
    pub(crate) fn push(&mut self, line: Line)
        requires { 0 < self.old.room }
        ensures lines { self.new.lines ≡ self.old.lines ++ line ∷ [] }
        ensures room { self.new.room ≡ self.old.room - 1 }
    {
        // The check finds a type that a line holds only where the function names it.
        let _: Option<Verdict> = None;
        self.lines.push_reserved(line);
    }
}
