ghost use Rattle.std.specs.Prelude.{◌≡◌, ◌<◌, IfOk, IfSome, IsSome, Some, length, map};
ghost use Rattle.std.specs.List.{list_all, range_with_len};
ghost use Rattle.sr_base.specs.WordName.{HasWord};
ghost use Rattle.sr_core.specs.HeldPipes.{AreOf, DoesTo, after_at, entered_at, is_idle_at, lines_at, op_at, views_of};
ghost use Rattle.sr_machine.specs.Core.{pipe_lines};
ghost use Rattle.sr_machine.specs.Names.{word_name};
ghost use Rattle.sr_machine.specs.Ops.{op_name};
ghost use Rattle.sr_machine.specs.Pipe.{entered, fresh_pipe, is_idle};

use crate::PipeMachine;
use sr_base::{Layout, Packet};
use sr_law::Line;
use sr_machine::{Op, Stepped};
use std::alloc::{AllocError, Global};
use std::marker::Model;

// How many packets enter on a pipe, at most.
const MOST_LINES: usize = (1 << 32) - 1;

/// The pipes of a machine, by number from 0.
#[derive(Drop)]
pub struct Pipes {
    layout: Layout,
    pipes: Vec<PipeMachine>,
}

impl Model for Pipes {
    ghost use Rattle.std.specs.Prelude.{◌≡◌, length};
    ghost use Rattle.sr_core.specs.HeldPipes.{AreOf, HeldPipes, views_of};

    ghost Value = { HeldPipes };

    ghost view = { λ p. record { layout = p.layout; views = views_of p.pipes.items } };

    ghost invariant = { λ p. AreOf p.layout p.pipes.items };
}

impl Pipes {
    /// As many as the layout has, each of which has done nothing yet.
    pub fn new(alloc: Global, layout: &Layout) -> Result<Pipes, AllocError>
        ensures { IfOk result (λ p. p ≡ record {
          layout = layout.now;
          views = map fresh_pipe (range_with_len 0 layout.now.shape.pipes);
        }) }
    {
        let mut pipes = Vec::new(alloc);
        for number in 0..layout.shape().pipes {
            pipes.push(PipeMachine::new(alloc, number, layout))?;
        }
        Ok(Pipes {
            layout: *layout,
            pipes,
        })
    }

    /// A packet enters on a pipe. Not now exactly where there is no such pipe, it has a packet in hand or had 2^32 - 1, or the layout
    /// doesn't have the packet's virtual address.
    pub fn enter(&mut self, pipe: u8, packet: Packet) -> Stepped
        ensures layout { self.new.layout ≡ self.old.layout }
        ensures views { DoesTo result (entered_at self.old.layout pipe packet self.old.views) self.old.views self.new.views }
    {
        enter_at(&self.layout, &mut self.pipes, pipe, packet)
    }

    /// The next atomic step of a pipe. None exactly where there is no such pipe, or it is idle.
    pub fn next(&self, pipe: u8) -> Option<Op>
        ensures value { result ≡ op_at self.now.layout pipe self.now.views }
        ensures named { IfSome result (λ op. HasWord self.now.layout (word_name (op_name op))) }
    {
        next_at(&self.layout, &self.pipes, pipe)
    }

    /// The step of a pipe was made, and answered this.
    pub fn after(&mut self, pipe: u8, answer: u64)
        requires { pipe < length self.old.views }
        ensures layout { self.new.layout ≡ self.old.layout }
        ensures views { after_at self.old.layout pipe answer self.old.views ≡ Some self.new.views }
    {
        after_at(&self.layout, &mut self.pipes, pipe, answer);
    }

    /// Whether a pipe has no packet in hand; also of one that isn't there.
    pub fn is_idle(&self, pipe: u8) -> bool
        ensures { result ≡ is_idle_at pipe self.now.views }
    {
        is_idle_in(&self.pipes, pipe)
    }

    /// Whether no pipe has a packet in hand.
    #[tactic(auto, using(crate::proofs::Views::all_views))]
    pub fn all_idle(&self) -> bool
        ensures { result ≡ list_all (λ v. is_idle v.stage) self.now.views }
    {
        all_idle_in(&self.pipes)
    }

    /// The lines of a pipe so far.
    pub fn lines(&self, pipe: u8) -> &[Line]
        requires { pipe < length self.now.views }
        ensures { result.now ≡ lines_at pipe self.now.views }
    {
        self.pipes[pipe as usize].lines()
    }

    /// The lines of all pipes so far, one pipe after another.
    pub fn all_lines(&self, alloc: Global) -> Result<Vec<Line>, AllocError>
        ensures { IfOk result (λ v. v.items ≡ pipe_lines self.now.views) }
    {
        lines_of_all(alloc, &self.pipes)
    }
}

// A packet enters on the pipe of this number, if it can.
#[tactic(auto, using(crate::proofs::Views::enters_in, crate::proofs::Views::none_enters, crate::proofs::Views::layouts_set, crate::proofs::Views::layout_at))]
fn enter_at(layout: &Layout, pipes: &mut [PipeMachine], pipe: u8, packet: Packet) -> Stepped
    requires { AreOf layout.now pipes.old }
    ensures layouts { AreOf layout.now pipes.new }
    ensures views { DoesTo result (entered_at layout.now pipe packet (views_of pipes.old)) (views_of pipes.old) (views_of pipes.new) }
{
    if (pipe as usize) < pipes.len() {
        enter_on(layout, &mut pipes[pipe as usize], packet)
    } else {
        Stepped::NotNow
    }
}

// The lines of these pipes so far, one pipe after another.
fn lines_of_all(alloc: Global, pipes: &[PipeMachine]) -> Result<Vec<Line>, AllocError>
    ensures { IfOk result (λ v. v.items ≡ pipe_lines (views_of pipes.now)) }
{
    let mut lines = Vec::new(alloc);
    for pipe in pipes {
        lines.extend_from_slice(pipe.lines())?;
    }
    Ok(lines)
}

// Whether none of these pipes has a packet in hand.
fn all_idle_in(pipes: &[PipeMachine]) -> bool
    ensures { result ≡ list_all (λ h. is_idle h.view.stage) pipes.now }
{
    pipes.iter().all(|pipe| pipe.is_idle())
}

// Whether the pipe of this number has no packet in hand.
#[tactic(auto, using(crate::proofs::Views::idle_there, crate::proofs::Views::idle_past))]
fn is_idle_in(pipes: &[PipeMachine], pipe: u8) -> bool
    ensures { result ≡ is_idle_at pipe (views_of pipes.now) }
{
    if (pipe as usize) < pipes.len() {
        pipes[pipe as usize].is_idle()
    } else {
        true
    }
}

// The next step of the pipe of this number.
#[tactic(auto, using(crate::proofs::Views::next_at, crate::proofs::Views::none_next, crate::proofs::Views::layout_at))]
fn next_at(layout: &Layout, pipes: &[PipeMachine], pipe: u8) -> Option<Op>
    requires { AreOf layout.now pipes.now }
    ensures value { result ≡ op_at layout.now pipe (views_of pipes.now) }
    ensures named { IfSome result (λ op. HasWord layout.now (word_name (op_name op))) }
{
    if (pipe as usize) < pipes.len() {
        pipes[pipe as usize].next()
    } else {
        None
    }
}

// The pipe of this number made its step, which answered this.
#[tactic(auto, using(crate::proofs::Views::after_in, crate::proofs::Views::layouts_set, crate::proofs::Views::layout_at))]
fn after_at(layout: &Layout, pipes: &mut [PipeMachine], pipe: u8, answer: u64)
    requires layouts { AreOf layout.now pipes.old }
    requires within { pipe < length pipes.old }
    ensures layouts { AreOf layout.now pipes.new }
    ensures views { after_at layout.now pipe answer (views_of pipes.old) ≡ Some (views_of pipes.new) }
{
    pipes[pipe as usize].after(answer);
}

// A packet enters on this pipe of a layout, if it can.
fn enter_on(layout: &Layout, pipe: &mut PipeMachine, packet: Packet) -> Stepped
    requires { pipe.old.layout ≡ layout.now }
    ensures layout { pipe.new.layout ≡ pipe.old.layout }
    ensures view { DoesTo result (entered pipe.old.layout packet pipe.old.view) pipe.old.view pipe.new.view }
{
    let can_enter = pipe.is_idle()
        && packet.key.vip < layout.vips()
        && pipe.lines().len() < MOST_LINES;
    if !can_enter {
        return Stepped::NotNow;
    }
    match pipe.reserve(1) {
        Ok(()) => {
            pipe.enter(packet);
            Stepped::Made
        }
        Err(_) => Stepped::Memory,
    }
}
