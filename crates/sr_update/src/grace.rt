ghost use Rattle.std.specs.Prelude.{◌≡◌, ◌<◌, MatchResult};
ghost use Rattle.sr_update.specs.Grace.{grace_from, saw_of, after_note};

use crate::Saw;
use std::marker::Model;

/// A wait for every pipe after a publication. A tick is drawn after what was published; a pipe has passed once its
/// note was read as 0, since it is at rest, or as a later tick, since it then took up its packet after the
/// publication. So once all have passed, no packet in flight can have missed what was published.
#[derive(Debug, Drop)]
pub struct Grace {
    tick: u64,
    pipes: u8,
    next: u8,
}

impl Model for Grace {
    ghost use Rattle.std.specs.Prelude.{◌≤◌};
    ghost use Rattle.sr_update.specs.Grace.{GraceView};

    ghost Value = { GraceView };

    ghost view = { λ g. record { tick = g.tick; pipes = g.pipes; next = g.next } };

    ghost invariant = { λ g. g.next ≤ g.pipes };
}

/// The sign that a grace has ended: `Grace::finish` alone makes one. It is seen as the grace's tick.
#[derive(Debug, Drop)]
pub struct Passed {
    tick: u64,
}

impl Model for Passed {
    ghost use Rattle.std.specs.Prelude.{ℕ};

    ghost Value = { ℕ };

    ghost view = { λ p. p.tick };
}

impl Grace {
    /// The grace of a tick, for so many pipes. None of them has passed.
    pub fn new(tick: u64, pipes: u8) -> Grace
        ensures { result ≡ grace_from tick pipes }
    {
        Grace {
            tick,
            pipes,
            next: 0,
        }
    }

    /// The note of the next pipe was read. `NotYet` exactly where it is a tick before the grace's; then the same pipe
    /// stays the next one.
    pub fn saw(&mut self, note: u64) -> Saw
        requires { self.old.next < self.old.pipes }
        ensures answer { result ≡ saw_of self.old note }
        ensures after { self.new ≡ after_note self.old note }
    {
        if 0 < note && note < self.tick {
            return Saw::NotYet {
                pipe: self.next,
                entered: note,
            };
        }
        self.next += 1;
        Saw::Passed
    }

    /// Ends the grace. The error, exactly where a pipe hasn't passed, is the same grace.
    pub fn finish(self) -> Result<Passed, Grace>
        ensures { MatchResult result
            (λ passed. (self.next ≡ self.pipes) × (passed ≡ self.tick))
            (λ grace. (self.next < self.pipes) × (grace ≡ self)) }
    {
        if self.next < self.pipes {
            return Err(self);
        }
        Ok(Passed { tick: self.tick })
    }
}
