//! Packets of the same keys go through both pipes of narrow tables, with rings of one cell, two virtual addresses and four changes. A seed picks who
//! acts next.

use crate::scene::{finishes, machine, packet, steps};
use sr_base::{Kind, Packet};
use sr_core::Core;
use sr_gen::Generator;
use sr_machine::{Event, Stepped};
use sr_steps::settle;
use std::alloc::Global;
use std::test::Fail;

/// Narrow tables.
pub(crate) const RING_OF_ONE: &str = "servers = [\"10.1.0.1:80\", \"10.1.0.2:80\"]
[shape]
pipes = 2
buckets = 1
digest_bits = 0
versions = 2
pool_max = 1
full_rows = 4
filter_bits = 1
ring = 1
window_ms = 1
idle_ms = 2
lives = 1
[[vip]]
addr = \"192.0.2.1:80\"
pool = [0]
[[vip]]
addr = \"192.0.2.2:80\"
pool = [0]
[[change]]
at_ms = 1
vip = 0
pool = [1]
[[change]]
at_ms = 1
vip = 1
pool = [1]
[[change]]
at_ms = 2
down = 0
[[change]]
at_ms = 3
vip = 0
pool = [0]
";

// The packet of this number: of one of two clients, to one of the two virtual addresses.
fn next_packet(number: u32) -> Packet {
    let kind = match number % 5 {
        0 => Kind::Ending,
        1 => Kind::Opener,
        2 => Kind::Opener,
        _ => Kind::Carry,
    };
    packet(number, (number % 2) as u8, 9 + (number / 2 % 2) as u8, kind)
}

/// The machine, the packets that have entered, and the time.
#[derive(Drop)]
pub(crate) struct Play {
    pub(crate) core: Core,
    pub(crate) packets: Vec<Packet>,
    generator: Generator,
    ms: u64,
}

impl Play {
    // A pipe makes its next step, or takes the next packet where it has none in hand.
    fn pipe_acts(&mut self, pipe: u8) -> Result<(), Fail> {
        if self.core.is_idle(pipe) && self.packets.len() < 24 {
            let number = self.packets.len() as u32 + 1;
            let packet = next_packet(number);
            if let Stepped::Made = self.core.step(Event::Enter { pipe, packet }) {
                self.packets.push(next_packet(number))?;
            }
        }
        steps(&mut self.core, pipe);
        Ok(())
    }

    // Whoever the generator picks acts: a pipe, the controller, or the clock.
    fn acts(&mut self) -> Result<(), Fail> {
        match self.generator.draw() % 64 {
            0 => {
                self.ms = self.ms.saturating_add(1);
                self.core.step(Event::Due { ms: self.ms });
            }
            n if n < 22 => self.pipe_acts(0)?,
            n if n < 43 => self.pipe_acts(1)?,
            _ => {
                self.core.control();
            }
        }
        Ok(())
    }

    // So many picks.
    fn acts_often(&mut self, picks: u32) -> Result<(), Fail> {
        for _pick in 0..picks {
            self.acts()?;
        }
        Ok(())
    }

    // So many picks; then the packets in hand end, and the controller makes its turns until nothing is left to do.
    fn goes(&mut self, picks: u32) -> Result<(), Fail> {
        self.acts_often(picks)?;
        finishes(&mut self.core, 0);
        finishes(&mut self.core, 1);
        settle(&mut self.core)?;
        Ok(())
    }
}

// The machine before anything happened.
fn fresh(alloc: Global, seed: u64) -> Result<Play, Fail> {
    Ok(Play {
        core: machine(alloc, RING_OF_ONE)?,
        packets: Vec::new(alloc),
        generator: Generator::new(seed),
        ms: 0,
    })
}

/// The run that a seed picks, of so many picks, to its end.
pub(crate) fn played(alloc: Global, seed: u64, picks: u32) -> Result<Play, Fail> {
    let mut play = fresh(alloc, seed)?;
    match play.goes(picks) {
        Ok(()) => Ok(play),
        Err(why) => Err(why),
    }
}
