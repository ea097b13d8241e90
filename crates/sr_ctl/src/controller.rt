ghost use Rattle.std.specs.Prelude.{◌≡◌, ℕ, ◌+◌, ◌^◌, ◌<◌, ◌≤◌, ◌↔◌, true, false, option_map, None, Some, IfOk, IsTrue, if◌then◌else◌};
ghost use Rattle.sr_ctl.specs.Needs.{is_look, makes_room};
ghost use Rattle.sr_ctl.specs.SeenController.{IsFor};
ghost use Rattle.sr_ctl.specs.Turned.{Makes};
ghost use Rattle.sr_machine.specs.Boards.{StaysAtRest};
ghost use Rattle.sr_machine.specs.Deciding.{words_taken};
ghost use Rattle.sr_machine.specs.Opening.{opening_controller};
ghost use Rattle.sr_machine.specs.Telling.{is_no_earlier, told_time, told_to_refuse};
ghost use Rattle.sr_machine.specs.Settling.{awaited};
ghost use Rattle.sr_machine.specs.Turning.{most_steps};
ghost use Rattle.sr_machine.specs.declared.name.Name.{Name as AName};
ghost use Rattle.sr_machine.specs.declared.turn.Turn.TheVariants as answer;
ghost use Rattle.sr_machine.specs.declared.view.View.TheVariants.{OfController};

use crate::acting::act;
use sr_acts::{ControllerMachine, MachineConfig};
use sr_base::{Key, layout_ranges};
use sr_law::Line;
use sr_machine::{Board, Job, Turn};
use std::alloc::{AllocError, Global};
use std::marker::Model;

/// The controller: it makes its acts one turn after another, on its board.
#[derive(Drop)]
pub struct Controller {
    machine: ControllerMachine,
}

impl Model for Controller {
    ghost use Rattle.std.specs.Prelude.{◌≡◌, ◌≤◌, false};
    ghost use Rattle.sr_ctl.specs.Needs.{is_look, kept};
    ghost use Rattle.sr_ctl.specs.SeenController.{SeenController};

    ghost Value = { SeenController };

    ghost view = { λ c. record { config = c.machine.config; view = c.machine.view } };

    ghost invariant = { λ c. (is_look c.machine.view.job ≡ false) × (kept c.machine.view.job ≤ c.machine.room) };
}

impl Controller {
    /// The controller at the beginning.
    pub fn new(alloc: Global, config: MachineConfig) -> Result<Controller, AllocError>
        ensures config { IfOk result (λ c. c.config ≡ config) }
        ensures view { IfOk result (λ c. c.view ≡ opening_controller config) }
    {
        let machine = ControllerMachine::new(alloc, config)?;
        Ok(Controller { machine })
    }

    /// Its lines so far.
    pub fn lines(&self) -> &[Line]
        ensures { result.now ≡ self.now.view.lines }
    {
        self.machine.lines()
    }

    /// What it was made for.
    pub fn config(&self) -> &MachineConfig
        ensures { result.now ≡ self.now.config }
    {
        self.machine.config()
    }

    /// Between turns no look at the rings is in progress.
    pub fn between_turns(&self)
        ensures { is_look self.now.view.job ≡ false }
    {
        let _ = &self.machine;
    }

    /// Whether it can be told this time: its clock doesn't fall.
    pub fn can_be_told(&self, ms: u64) -> bool
        ensures { result ≡ is_no_earlier self.now.view.clock ms }
    {
        match self.machine.clock() {
            None => true,
            Some(clock) => clock <= ms,
        }
    }

    /// Whether a turn keeps within the ticks and the words that a controller draws and takes, 2^56 of each.
    pub fn can_turn(&self) -> bool
        ensures { IsTrue result ↔ (self.now.view.drawn + 4 ≤ 2 ^ 56) × (words_taken self.now.view.rings < 2 ^ 56) }
    {
        self.machine.drawn() <= (1 << 56) - 4 && self.machine.taken() < 1 << 56
    }

    /// It is told the time, in milliseconds of capture time: changes up to then are due. The board is told, and makes no step.
    pub fn due<B: Board>(&mut self, board: &mut B, ms: u64)
        requires time { is_no_earlier self.old.view.clock ms ≡ true }
        requires board { IsFor (B.fits board.old) (B.beside board.old) self.old }
        ensures config { self.new.config ≡ self.old.config }
        ensures view { told_time ms self.old.view ≡ Some self.new.view }
        ensures board { IsFor (B.fits board.new) (B.beside board.new) self.new }
        ensures words { (words : AName → ℕ) → B.shows board.old words → B.shows board.new words }
        ensures beside { B.beside board.new ≡ B.beside board.old }
        ensures rest { StaysAtRest (B.rests board.old) (B.reports board.old) (B.rests board.new) (B.reports board.new) }
    {
        self.machine.due(ms);
        board.due(ms);
    }

    /// A change is refused, where that can be told: nothing that is done could free a version number for it. The board is told, and makes
    /// no step. False, and nothing changed, where it can't.
    pub fn refuse<B: Board>(&mut self, board: &mut B) -> bool
        requires { IsFor (B.fits board.old) (B.beside board.old) self.old }
        ensures config { self.new.config ≡ self.old.config }
        ensures told { told_to_refuse self.old.view ≡ (if result then Some self.new.view else None) }
        ensures same { result ≡ false → self.new ≡ self.old }
        ensures board { IsFor (B.fits board.new) (B.beside board.new) self.new }
        ensures words { (words : AName → ℕ) → B.shows board.old words → B.shows board.new words }
        ensures beside { B.beside board.new ≡ B.beside board.old }
        ensures rest { StaysAtRest (B.rests board.old) (B.reports board.old) (B.rests board.new) (B.reports board.new) }
    {
        let refused = self.machine.refuse();
        if refused {
            board.refuse();
        }
        refused
    }

    /// The key for which the update that is under way waits.
    pub fn awaited(&self) -> Option<Key>
        ensures { result ≡ option_map (λ e. e.key) (awaited self.now.view) }
    {
        self.machine.awaited()
    }

    /// Makes a turn: the first act that applies, of 4 steps at most or as many as there are pipes. It waits for nobody. Memory comes
    /// before the first step, so that nothing has changed then, and only at a turn that begins something or takes the next word of a ring.
    pub fn turn<B: Board>(&mut self, board: &mut B) -> Turn
        requires ticks { self.old.view.drawn + 4 ≤ 2 ^ 56 }
        requires words { words_taken self.old.view.rings < 2 ^ 56 }
        requires board { IsFor (B.fits board.old) (B.beside board.old) self.old }
        ensures config { self.new.config ≡ self.old.config }
        ensures turned { Makes self.old.config (B.fits board.old) (B.shows board.old) self.old.view result
            (B.fits board.new) (B.shows board.new) self.new.view }
        ensures memory { result ≡ answer.Memory → (board.new ≡ board.old) × (makes_room self.old.view.job ≡ true) }
        ensures board { IsFor (B.fits board.new) (B.beside board.new) self.new }
        ensures beside { B.beside board.new ≡ B.beside board.old }
        ensures rest { B.rests board.old → B.rests board.new }
    {
        let layout = self.machine.config().layout();
        layout_ranges(layout);
        let most = layout.shape().pipes.max(4);
        if makes_room(self.machine.job()) && self.machine.reserve(most as usize + 1).is_err() {
            return Turn::Memory;
        }
        act(board, &mut self.machine, most)
    }
}

// Whether a turn with this job makes room first: it begins something, or takes the next word of a ring.
fn makes_room(job: &Job) -> bool
    ensures { result ≡ makes_room job.now }
{
    match job {
        Job::Free => true,
        Job::Drain { .. } => true,
        _ => false,
    }
}
