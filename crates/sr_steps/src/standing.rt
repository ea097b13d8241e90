ghost use Rattle.std.specs.Prelude.{◌≡◌, ◌+◌, ◌^◌, ◌<◌, ◌≤◌, not, find, slice_get};
ghost use Rattle.std.specs.List.{list_all};
ghost use Rattle.sr_picks.specs.Play.{all_done, has_ended, is_handled, order_from, share_of, turns_ended, waits_after};
ghost use Rattle.sr_steps.specs.Standing.{TakesAt, TakesFrom, no_words, play_of};

use crate::Share;
use sr_base::Packet;
use sr_core::Core;
use sr_gen::Generator;
use std::marker::Model;

// The controller's turns in a round, at most.
const MOST_TURNS: u64 = 1 << 20;

// Those in a row that find nothing to do, once every pipe is done.
const MOST_WAITS: u64 = 1 << 10;

/// Where a round stands, beside the machine.
#[derive(Drop)]
pub struct Standing {
    shares: Vec<Share>,
    turns: u64,
    waits: u64,
    generator: Generator,
}

impl Model for Standing {
    ghost use Rattle.std.specs.Prelude.{◌^◌, ◌≤◌};
    ghost use Rattle.sr_steps.specs.Standing.{StandingView};

    ghost Value = { StandingView };

    ghost view = { λ r. record { shares = r.shares.items; turns = r.turns; waits = r.waits; generator = r.generator } };

    ghost invariant = { λ r. (r.waits ≤ r.turns) × (r.turns ≤ 2 ^ 20) };
}

impl Standing {
    /// A round begins: no turn was made in it.
    pub fn new(shares: Vec<Share>, generator: Generator) -> Standing
        ensures { result ≡ record { shares = shares.items; turns = 0; waits = 0; generator = generator } }
    {
        Standing {
            shares,
            turns: 0,
            waits: 0,
            generator,
        }
    }

    /// Whether every pipe has handled its share.
    pub fn is_done(&self, core: &Core) -> bool
        ensures { result ≡ all_done core.now.pipes self.now.shares }
    {
        core.all_idle() && all_handled(&self.shares)
    }

    /// Whether the controller has ended its round.
    pub fn has_turned(&self, core: &Core) -> bool
        ensures { result ≡ turns_ended (play_of core.now no_words self.now) }
    {
        MOST_TURNS <= self.turns || self.is_done(core) && MOST_WAITS <= self.waits
    }

    /// Whether an actor has ended its round: a pipe by its number, the controller by the number of pipes.
    pub fn has_ended(&self, core: &Core, actor: u8) -> bool
        ensures { result ≡ has_ended (play_of core.now no_words self.now) actor }
    {
        if actor == core.pipes() {
            return self.has_turned(core);
        }
        core.is_idle(actor) && self.is_handled(actor)
    }

    // Whether nothing is left of a pipe's share.
    fn is_handled(&self, pipe: u8) -> bool
        ensures { result ≡ is_handled (share_of (slice_get self.now.shares pipe)) }
    {
        match self.shares.get(pipe as usize) {
            Some(share) => share.is_handled(),
            None => true,
        }
    }

    /// The first actor from this one on that hasn't ended its round: the pipes, the controller, and the pipes before it.
    pub fn first_from(&self, core: &Core, first: u8) -> Option<u8>
        requires { first ≤ core.now.config.layout.shape.pipes }
        ensures { result ≡ find (λ i. not (has_ended (play_of core.now no_words self.now) i))
            (order_from core.now.config.layout.shape.pipes first) }
    {
        let pipes = core.pipes();
        (first..pipes + 1)
            .chain(0..first)
            .find(|actor| !self.has_ended(core, *actor))
    }

    /// The controller made a turn, which answered this.
    pub fn turned(&mut self, done: bool, nothing: bool)
        requires { self.old.turns < 2 ^ 20 }
        ensures { self.new ≡ record self.old { turns = self.old.turns + 1; waits = waits_after done nothing self.old.waits } }
    {
        self.turns += 1;
        self.waits = if done && nothing { self.waits + 1 } else { 0 };
    }

    /// The generator as it is.
    pub fn generator(&self) -> Generator
        ensures { result ≡ self.now.generator }
    {
        self.generator
    }

    /// The generator stands here from now on.
    pub fn drawn(&mut self, generator: Generator)
        ensures { self.new ≡ record self.old { generator = generator } }
    {
        self.generator = generator;
    }

    /// The next packet of a pipe's share.
    pub fn take(&mut self, pipe: u8) -> Option<Packet>
        ensures { TakesFrom result pipe self.old self.new }
    {
        take_at(&mut self.shares, pipe)
    }
}

// Whether nothing is left of these shares.
fn all_handled(shares: &[Share]) -> bool
    ensures { result ≡ list_all is_handled shares.now }
{
    shares.iter().all(|share| share.is_handled())
}

// The next packet of the share of this number.
fn take_at(shares: &mut [Share], pipe: u8) -> Option<Packet>
    ensures { TakesAt result pipe shares.old shares.new }
{
    if (pipe as usize) < shares.len() {
        shares[pipe as usize].take()
    } else {
        None
    }
}
