ghost use Rattle.std.specs.Prelude.{◌≡◌, ◌≤◌, ◌==◌, ℕ, List, [], OnOk, length, false};
ghost use Rattle.std.specs.BTreeMap.{get};
ghost use Rattle.std.specs.Ordering.{nat_cmp};
ghost use Rattle.sr_law.specs.Full.{leaves_word, may_be_full, words_since};
ghost use Rattle.sr_law.specs.declared.line.Line.{Line as ALine};
ghost use Rattle.sr_audit.specs.Index.{KeptWith};
ghost use Rattle.sr_audit.specs.Lately.{Falls};
ghost use Rattle.sr_audit.specs.Rings.{counted_in, TellsPipe, TellsRing, TellsRings};

use crate::ring::Ring;
use sr_base::{Kind, Shape};
use sr_law::{Line, Verdict};
use std::alloc::{AllocError, Global};
use std::collections::BTreeMap;

// A packet of this kind and verdict left a word in its pipe's ring, or found it full.
fn leaves_word(kind: Kind, verdict: Verdict) -> bool
    ensures { result ≡ leaves_word kind verdict }
{
    match (kind, verdict) {
        (_, Verdict::Held(_)) => true,
        (Kind::Opener, Verdict::To { .. }) => true,
        (Kind::Ending, _) => true,
        _ => false,
    }
}

// The pipe of a line that its ring counts.
fn counted_in(line: &Line) -> Option<u8>
    ensures { result ≡ counted_in line.now }
{
    match *line {
        Line::Packet {
            pipe,
            kind,
            verdict,
            ..
        } => if leaves_word(kind, verdict) {
            Some(pipe)
        } else {
            None
        },
        Line::Answer { pipe, .. } => Some(pipe),
        _ => None,
    }
}

// What the pipes' rings may have got, of each pipe with a line that its ring counts.
#[derive(Drop)]
pub(crate) struct Rings {
    alloc: Global,
    map: BTreeMap<u8, Ring>,
}

impl Rings {
    // Of no lines.
    pub(crate) fn new(alloc: Global) -> Rings
        ensures { TellsRings result [] }
    {
        Rings {
            alloc,
            map: BTreeMap::new(alloc),
        }
    }

    // A pipe's ring is taken out.
    fn take(&mut self, pipe: u8) -> Ring
        ensures taken { (before : List ALine) → TellsPipe pipe before (get nat_cmp self.old.map pipe) → TellsRing pipe result before }
        ensures others { (q : ℕ) → (pipe == q) ≡ false → get nat_cmp self.new.map q ≡ get nat_cmp self.old.map q }
    {
        match self.map.remove(&pipe) {
            Some(ring) => ring,
            None => Ring::new(self.alloc),
        }
    }

    // One line more.
    pub(crate) fn absorb(&mut self, line: &Line) -> Result<(), AllocError>
        ensures { OnOk result (KeptWith TellsRings self.old self.new line.now) }
    {
        if let Some(pipe) = counted_in(line) {
            let mut ring = self.take(pipe);
            ring.absorb(line)?;
            self.map.insert(pipe, ring)?;
        }
        Ok(())
    }

    // How many words a pipe's ring may have got since its last opener that was held and answered before this tick.
    fn words_since(&self, pipe: u8, tick: u64) -> u64
        ensures { (before : List ALine) → length before ≤ u64.MAX → Falls before → TellsRings self.now before
            → result ≡ words_since before pipe tick before }
    {
        match self.map.get(&pipe) {
            Some(ring) => ring.words_since(tick),
            None => Ring::new(self.alloc).words_since(tick),
        }
    }

    // Whether a pipe's ring may have been full at this tick.
    #[tactic(auto, unfolding(sr_law::specs::Full::may_be_full))]
    pub(crate) fn may_be_full(&self, shape: &Shape, pipe: u8, start: u64) -> bool
        ensures { (before : List ALine) → length before ≤ u64.MAX → Falls before → TellsRings self.now before
            → result ≡ may_be_full shape.now before pipe start }
    {
        shape.ring as u64 <= self.words_since(pipe, start)
    }
}
