ghost use Rattle.std.specs.Prelude.{◌≡◌, ◌≤◌, ◌++◌, ℕ, IfOk, if◌then◌else◌, option_map};
ghost use Rattle.std.specs.List.{list_all};
ghost use Rattle.sr_base.specs.WordName.{HasWord, word_at};
ghost use Rattle.sr_core.specs.HeldCore.{ControlsTo, IsActorOf, Shows, StepsTo, lines_by, state_of};
ghost use Rattle.sr_core.specs.HeldPipes.{is_idle_at};
ghost use Rattle.sr_core.specs.PlainWords.{ShowsWords};
ghost use Rattle.sr_machine.specs.Core.{opening, pipe_lines, step_event};
ghost use Rattle.sr_machine.specs.Pipe.{is_idle};
ghost use Rattle.sr_machine.specs.Settling.{awaited};
ghost use Rattle.sr_machine.specs.declared.actor.Actor.TheVariants as actor;
ghost use Rattle.sr_machine.specs.declared.event.Event.TheVariants.{Step as ToStep};
ghost use Rattle.sr_machine.specs.declared.name.Name.{Name as AName};
ghost use Rattle.sr_machine.specs.declared.stepped.Stepped.TheVariants.{Made, NotNow};

use crate::{Controlled, Pipes, PlainWords};
use sr_acts::{ControllerMachine, MachineConfig};
use sr_base::{Key, WordName, layout_ranges};
use sr_law::Line;
use sr_machine::{Actor, Event, Stepped};
use std::alloc::{AllocError, Global};
use std::marker::Model;

/// The load balancer as one machine of atomic steps (SilkRoad, SIGCOMM 2017): the shared words, and what each pipe and the
/// controller know.
#[derive(Drop)]
pub struct Core {
    words: PlainWords,
    pipes: Pipes,
    controller: ControllerMachine,
}

impl Model for Core {
    ghost use Rattle.std.specs.Prelude.{◌≡◌};
    ghost use Rattle.sr_core.specs.HeldCore.{HeldCore};

    ghost Value = { HeldCore };

    ghost view = { λ c. record {
      config = c.controller.config;
      words = c.words.words;
      pipes = c.pipes.views;
      controller = c.controller.view;
    } };

    ghost invariant = { λ c. (c.words.layout ≡ c.controller.config.layout) × (c.pipes.layout ≡ c.controller.config.layout) };
}

impl Core {
    /// The state at the beginning: the first pools are named, and nothing else is in the words.
    pub fn new(alloc: Global, config: MachineConfig) -> Result<Core, AllocError>
        ensures { IfOk result (λ c. Shows c (opening config)) }
    {
        config.fits();
        let words = PlainWords::opening_of(alloc, config.layout(), config.pools())?;
        let pipes = Pipes::new(alloc, config.layout())?;
        let controller = ControllerMachine::new(alloc, config)?;
        Ok(Core {
            words,
            pipes,
            controller,
        })
    }

    /// Makes an event. Not now comes exactly where the machine has none: a step of an idle pipe or of one that isn't there, a packet
    /// on a pipe that has one in hand or to a virtual address that isn't there, a clock that falls, a refusal while there is
    /// something else to do.
    pub fn step(&mut self, event: Event) -> Stepped
        ensures { (words : AName → ℕ) → ShowsWords self.old.config.layout self.old.words words
            → StepsTo result (step_event event (state_of self.old words)) self.old self.new }
    {
        match event {
            Event::Enter { pipe, packet } => self.pipes.enter(pipe, packet),
            Event::Due { ms } => made_if(self.controller.due(ms)),
            Event::Refuse => made_if(self.controller.refuse()),
            Event::Step { actor } => match actor {
                Actor::Pipe(pipe) => self.step_pipe(pipe),
                Actor::Controller => self.step_controller(),
            },
        }
    }

    // The next step of a pipe.
    fn step_pipe(&mut self, pipe: u8) -> Stepped
        ensures { (words : AName → ℕ) → ShowsWords self.old.config.layout self.old.words words
            → StepsTo result (step_event (ToStep (actor.Pipe pipe)) (state_of self.old words)) self.old self.new }
    {
        match self.pipes.next(pipe) {
            Some(op) => {
                let answer = self.words.make(op);
                self.pipes.after(pipe, answer);
                Stepped::Made
            }
            None => Stepped::NotNow,
        }
    }

    // The next step of the controller.
    fn step_controller(&mut self) -> Stepped
        ensures { (words : AName → ℕ) → ShowsWords self.old.config.layout self.old.words words
            → StepsTo result (step_event (ToStep actor.Controller) (state_of self.old words)) self.old self.new }
    {
        match self.control() {
            Controlled::Made => Stepped::Made,
            Controlled::Ended(_) => Stepped::Made,
            Controlled::NotNow => Stepped::NotNow,
            Controlled::Memory => Stepped::Memory,
        }
    }

    /// Makes the next step of the controller, and tells what it ended.
    pub fn control(&mut self) -> Controlled
        ensures { (words : AName → ℕ) → ShowsWords self.old.config.layout self.old.words words
            → ControlsTo result (state_of self.old words) self.old self.new }
    {
        match self.controller.next() {
            Some(op) => {
                if self.controller.reserve(1).is_err() {
                    return Controlled::Memory;
                }
                let answer = self.words.make(op);
                let end = self.controller.ends(answer);
                self.controller.after(answer);
                match end {
                    Some(turn) => Controlled::Ended(turn),
                    None => Controlled::Made,
                }
            }
            None => Controlled::NotNow,
        }
    }

    /// How many pipes there are.
    pub fn pipes(&self) -> u8
        ensures value { result ≡ self.now.config.layout.shape.pipes }
        ensures most { result ≤ 16 }
    {
        let layout = self.controller.config().layout();
        layout_ranges(layout);
        layout.shape().pipes
    }

    /// Whether a pipe has no packet in hand; also of one that isn't there.
    pub fn is_idle(&self, pipe: u8) -> bool
        ensures { result ≡ is_idle_at pipe self.now.pipes }
    {
        self.pipes.is_idle(pipe)
    }

    /// Whether no pipe has a packet in hand.
    pub fn all_idle(&self) -> bool
        ensures { result ≡ list_all (λ v. is_idle v.stage) self.now.pipes }
    {
        self.pipes.all_idle()
    }

    /// The first key for which the update that is under way waits.
    pub fn awaited(&self) -> Option<Key>
        ensures { result ≡ option_map (λ e. e.key) (awaited self.now.controller) }
    {
        self.controller.awaited()
    }

    /// The lines of an actor so far, in the order of their ticks.
    pub fn lines(&self, actor: Actor) -> &[Line]
        requires { IsActorOf self.now actor }
        ensures { result.now ≡ lines_by actor self.now }
    {
        match actor {
            Actor::Pipe(pipe) => self.pipes.lines(pipe),
            Actor::Controller => self.controller.lines(),
        }
    }

    /// The lines of all actors so far: those of one pipe after another, and then the controller's.
    pub fn all_lines(&self, alloc: Global) -> Result<Vec<Line>, AllocError>
        ensures { IfOk result (λ v. v.items ≡ pipe_lines self.now.pipes ++ self.now.controller.lines) }
    {
        let mut lines = self.pipes.all_lines(alloc)?;
        lines.extend_from_slice(self.controller.lines())?;
        Ok(lines)
    }

    /// A word.
    pub fn word(&self, at: WordName) -> u64
        requires { HasWord self.now.config.layout at }
        ensures { result ≡ word_at self.now.config.layout self.now.words at }
    {
        self.words.at(at)
    }
}

// An event was made, or can't be made now.
fn made_if(made: bool) -> Stepped
    ensures { result ≡ (if made then Made else NotNow) }
{
    if made { Stepped::Made } else { Stepped::NotNow }
}
