//! The steps of a turn, on a board.

ghost use Rattle.std.specs.Prelude.{◌≡◌, ℕ, ◌+◌, ◌^◌, ◌<◌, ◌≤◌, true, false};
ghost use Rattle.sr_acts.specs.Rooms.{added};
ghost use Rattle.sr_ctl.specs.Needs.{is_look, kept, needed};
ghost use Rattle.sr_ctl.specs.SeenController.{IsFor, seen};
ghost use Rattle.sr_ctl.specs.Turned.{StepMade, TurnedOn};
ghost use Rattle.sr_machine.specs.Deciding.{in_bounds, words_taken};
ghost use Rattle.sr_machine.specs.Starting.{begun};
ghost use Rattle.sr_machine.specs.Turning.{most_steps};

use sr_acts::ControllerMachine;
use sr_machine::{Board, Turn, perform, turns_end};

// Makes the next step, and answers what it ends.
fn step<B: Board>(board: &mut B, machine: &mut ControllerMachine) -> Option<Turn>
    requires bounds { in_bounds machine.old.view ≡ true }
    requires room { 0 < machine.old.room }
    requires board { IsFor (B.fits board.old) (B.beside board.old) (seen machine.old.config machine.old.view) }
    ensures config { machine.new.config ≡ machine.old.config }
    ensures room { machine.old.room ≤ machine.new.room + added (begun machine.old.config machine.old.view).job }
    ensures made { (answer : ℕ) × StepMade machine.old.config (B.fits board.old) (B.shows board.old) machine.old.view answer result
        (B.fits board.new) (B.shows board.new) machine.new.view }
    ensures beside { B.beside board.new ≡ B.beside board.old }
    ensures rest { B.rests board.old → B.rests board.new }
{
    let Some(op) = machine.next() else {
        return None;
    };
    let answer = perform(board, op);
    let end = machine.ends(answer);
    machine.after(answer);
    end
}

/// Makes the steps of a turn, up to the one that ends an act.
pub(crate) fn act<B: Board>(board: &mut B, machine: &mut ControllerMachine, most: u8) -> Turn
    requires most { most ≡ most_steps machine.old.config.layout }
    requires some { 1 ≤ machine.old.config.layout.shape.pipes }
    requires ticks { machine.old.view.drawn + 4 ≤ 2 ^ 56 }
    requires words { words_taken machine.old.view.rings < 2 ^ 56 }
    requires look { is_look machine.old.view.job ≡ false }
    requires room { needed machine.old.config.layout (begun machine.old.config machine.old.view).job ≤ machine.old.room }
    requires board { IsFor (B.fits board.old) (B.beside board.old) (seen machine.old.config machine.old.view) }
    ensures config { machine.new.config ≡ machine.old.config }
    ensures look { is_look machine.new.view.job ≡ false }
    ensures room { kept machine.new.view.job ≤ machine.new.room }
    ensures turned { TurnedOn machine.old.config (B.fits board.old) (B.shows board.old) machine.old.view result
        (B.fits board.new) (B.shows board.new) machine.new.view }
    ensures beside { B.beside board.new ≡ B.beside board.old }
    ensures rest { B.rests board.old → B.rests board.new }
{
    turns_end();
    for _step in 0..most {
        if let Some(turn) = step(board, machine) {
            return turn;
        }
    }
    Turn::Memory
}
