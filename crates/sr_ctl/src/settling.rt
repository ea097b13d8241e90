//! Turns until nothing is left to do.

ghost use Rattle.std.specs.Prelude.{◌≡◌, ℕ, ◌+◌, ◌^◌, ◌<◌, ◌≤◌, false, Some, None, if◌then◌else◌};
ghost use Rattle.sr_ctl.specs.SeenController.{IsFor};
ghost use Rattle.sr_ctl.specs.Settles.{GoesOn, SettledOn};
ghost use Rattle.sr_ctl.specs.declared.went.Went.TheVariants as went;
ghost use Rattle.sr_machine.specs.Deciding.{words_taken};
ghost use Rattle.sr_machine.specs.Settling.{awaited, ending_of};
ghost use Rattle.sr_machine.specs.Telling.{told_to_refuse};
ghost use Rattle.sr_machine.specs.declared.name.Name.{Name as AName};
ghost use Rattle.sr_machine.specs.declared.view.View.TheVariants.{OfController};

use crate::Controller;
use crate::went::Went;
use sr_machine::{Board, Settled, Turn};

impl Controller {
    /// Makes turns until nothing is left to do, and answers what is waited for, if anything is. Where a turn finds nothing to do and
    /// a change finds no version number, the change is refused. Turns past 2^56 ticks or words, or more than 2^64 - 1 of them, are taken
    /// for want of memory.
    pub fn settle_all<B: Board>(&mut self, board: &mut B) -> Settled
        requires board { IsFor (B.fits board.old) (B.beside board.old) self.old }
        ensures config { self.new.config ≡ self.old.config }
        ensures settled { SettledOn self.old.config (B.fits board.old) (B.shows board.old) self.old.view result
            (B.fits board.new) (B.shows board.new) self.new.view }
        ensures board { IsFor (B.fits board.new) (B.beside board.new) self.new }
        ensures beside { B.beside board.new ≡ B.beside board.old }
        ensures rest { B.rests board.old → B.rests board.new }
    {
        for _turn in 0..u64::MAX {
            if !self.can_turn() {
                return Settled::Memory;
            }
            match self.go_on(board) {
                Went::On => {}
                Went::Over => return self.ending(),
                Went::Nowhere => return Settled::Memory,
            }
        }
        Settled::Memory
    }

    // A turn. Where it finds nothing to do a change is refused after it, if that can be told.
    fn go_on<B: Board>(&mut self, board: &mut B) -> Went
        requires ticks { self.old.view.drawn + 4 ≤ 2 ^ 56 }
        requires words { words_taken self.old.view.rings < 2 ^ 56 }
        requires board { IsFor (B.fits board.old) (B.beside board.old) self.old }
        ensures config { self.new.config ≡ self.old.config }
        ensures went { GoesOn self.old.config (B.fits board.old) (B.shows board.old) self.old.view result
            (B.fits board.new) (B.shows board.new) self.new.view }
        ensures board { IsFor (B.fits board.new) (B.beside board.new) self.new }
        ensures beside { B.beside board.new ≡ B.beside board.old }
        ensures rest { B.rests board.old → B.rests board.new }
    {
        let turn = self.turn(board);
        match turn {
            Turn::Did(_) => Went::On,
            Turn::NotYet { .. } => Went::On,
            Turn::NoRoom { .. } => after_refusal(self.refuse(board)),
            Turn::VersionsFull { .. } => after_refusal(self.refuse(board)),
            Turn::Idle => Went::Over,
            Turn::Memory => Went::Nowhere,
        }
    }

    // How the turns end: an update waits for a key, or nothing is left.
    fn ending(&self) -> Settled
        ensures { result ≡ ending_of (awaited self.now.view) }
    {
        match self.awaited() {
            Some(key) => Settled::Waiting { key },
            None => Settled::Quiet,
        }
    }
}

// The turns go on where a change was refused, and else are over.
fn after_refusal(refused: bool) -> Went
    ensures { result ≡ (if refused then went.On else went.Over) }
{
    if refused { Went::On } else { Went::Over }
}
