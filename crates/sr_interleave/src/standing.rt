ghost use Rattle.std.specs.Prelude.{◌≡◌, ◌+◌, ◌-◌, ◌^◌, ◌<◌, ◌≤◌, IfOk, not, find, map, slice_get};
ghost use Rattle.std.specs.List.{list_all};
ghost use Rattle.sr_core.specs.HeldPipes.{views_of};
ghost use Rattle.sr_interleave.specs.Standing.{TakesAt, TakesFrom, seen_play};
ghost use Rattle.sr_machine.specs.Pipe.{is_idle};
ghost use Rattle.sr_picks.specs.Play.{all_done, has_ended, is_handled, order_from, pipe_idle, share_of, turns_ended, waits_after};

use crate::share::Share;
use sr_base::Packet;
use sr_ctl::Controller;
use sr_pipe::Pipe;
use std::alloc::{AllocError, Global};
use std::marker::Model;

// The controller's turns in a round, at most.
const MOST_TURNS: u64 = 1 << 20;

// Those in a row that find nothing to do, once every pipe is done.
const MOST_WAITS: u64 = 1 << 10;

/// Where a round stands, beside the words and the actors.
#[derive(Drop)]
pub(crate) struct Standing<'a> {
    shares: Vec<Share<'a>>,
    turns: u64,
    waits: u64,
    generator: u64,
}

impl<'a> Model for Standing<'a> {
    ghost use Rattle.std.specs.Prelude.{◌^◌, ◌≤◌};
    ghost use Rattle.sr_interleave.specs.Standing.{StandingView};

    ghost Value = { StandingView };

    ghost view = { λ r. record { shares = r.shares.items; turns = r.turns; waits = r.waits; generator = r.generator } };

    ghost invariant = { λ r. (r.waits ≤ r.turns) × (r.turns ≤ 2 ^ 20) };
}

impl<'a> Standing<'a> {
    /// A round begins: no turn was made in it.
    pub(crate) fn new(
        alloc: Global,
        packets: &'a [Vec<Packet>],
        generator: u64,
    ) -> Result<Standing<'a>, AllocError>
        ensures { IfOk result (λ s. s ≡ record {
          shares = map (λ v. v.items) packets.now;
          turns = 0;
          waits = 0;
          generator = generator;
        }) }
    {
        let mut shares = Vec::new(alloc);
        for share in packets {
            shares.push(Share::new(share.as_slice()))?;
        }
        Ok(Standing {
            shares,
            turns: 0,
            waits: 0,
            generator,
        })
    }

    /// Whether every pipe has handled its share.
    pub(crate) fn is_done(&self, pipes: &[Pipe]) -> bool
        ensures { result ≡ all_done (views_of pipes.now) self.now.shares }
    {
        all_idle(pipes) && all_handled(&self.shares)
    }

    /// Whether the controller has ended its round.
    pub(crate) fn has_turned(&self, pipes: &[Pipe], controller: &Controller) -> bool
        ensures { result ≡ turns_ended (seen_play pipes.now controller.now self.now) }
    {
        let _ = controller;
        MOST_TURNS <= self.turns || self.is_done(pipes) && MOST_WAITS <= self.waits
    }

    /// Whether an actor has ended its round: a pipe by its number, the controller by the number of pipes.
    pub(crate) fn has_ended(&self, pipes: &[Pipe], controller: &Controller, actor: u8) -> bool
        ensures { result ≡ has_ended (seen_play pipes.now controller.now self.now) actor }
    {
        if actor == controller.config().layout().shape().pipes {
            return self.has_turned(pipes, controller);
        }
        is_idle_in(pipes, actor) && self.is_handled(actor)
    }

    // Whether nothing is left of a pipe's share.
    fn is_handled(&self, pipe: u8) -> bool
        ensures { result ≡ is_handled (share_of (slice_get self.now.shares pipe)) }
    {
        match self.shares.get(pipe as usize) {
            Some(share) => share.is_handled(),
            None => true,
        }
    }

    /// The first actor from this one on that hasn't ended its round: the pipes, the controller, and the pipes before it.
    pub(crate) fn first_from(
        &self,
        pipes: &[Pipe],
        controller: &Controller,
        first: u8,
    ) -> Option<u8>
        requires some { controller.now.config.layout.shape.pipes < 2 ^ 8 - 1 }
        requires first { first ≤ controller.now.config.layout.shape.pipes }
        ensures { result ≡ find (λ i. not (has_ended (seen_play pipes.now controller.now self.now) i))
            (order_from controller.now.config.layout.shape.pipes first) }
    {
        let last = controller.config().layout().shape().pipes;
        (first..last + 1)
            .chain(0..first)
            .find(|actor| !self.has_ended(pipes, controller, *actor))
    }

    /// The controller made a turn.
    pub(crate) fn turned(&mut self, done: bool, nothing: bool)
        requires { self.old.turns < 2 ^ 20 }
        ensures { self.new ≡ record self.old { turns = self.old.turns + 1; waits = waits_after done nothing self.old.waits } }
    {
        self.turns += 1;
        self.waits = if done && nothing { self.waits + 1 } else { 0 };
    }

    /// The generator as it is.
    pub(crate) fn generator(&self) -> u64
        ensures { result ≡ self.now.generator }
    {
        self.generator
    }

    /// The generator stands here from now on.
    pub(crate) fn drawn(&mut self, generator: u64)
        ensures { self.new ≡ record self.old { generator = generator } }
    {
        self.generator = generator;
    }

    /// The next packet of a pipe's share.
    pub(crate) fn take(&mut self, pipe: u8) -> Option<Packet>
        ensures { TakesFrom result pipe self.old self.new }
    {
        take_at(&mut self.shares, pipe)
    }
}

// Whether no pipe has a packet in hand.
fn all_idle(pipes: &[Pipe]) -> bool
    ensures { result ≡ list_all (λ v. is_idle v.stage) (views_of pipes.now) }
{
    all_idle_in(pipes)
}

// The same, of the pipes themselves.
fn all_idle_in(pipes: &[Pipe]) -> bool
    ensures { result ≡ list_all (λ h. is_idle h.view.stage) pipes.now }
{
    pipes.iter().all(|pipe| pipe.is_idle())
}

/// Whether the pipe of this number has no packet in hand; nor has one that isn't there.
pub(crate) fn is_idle_in(pipes: &[Pipe], pipe: u8) -> bool
    ensures { result ≡ pipe_idle (slice_get (views_of pipes.now) pipe) }
{
    if (pipe as usize) < pipes.len() {
        pipes[pipe as usize].is_idle()
    } else {
        true
    }
}

// Whether nothing is left of these shares.
fn all_handled(shares: &[Share<'_>]) -> bool
    ensures { result ≡ list_all is_handled shares.now }
{
    shares.iter().all(|share| share.is_handled())
}

// The next packet of the share of this number.
fn take_at(shares: &mut [Share<'_>], pipe: u8) -> Option<Packet>
    ensures { TakesAt result pipe shares.old shares.new }
{
    if (pipe as usize) < shares.len() {
        shares[pipe as usize].take()
    } else {
        None
    }
}
