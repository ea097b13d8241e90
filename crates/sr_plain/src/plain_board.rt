ghost use Rattle.std.specs.Prelude.{◌≡◌, IfOk, List, length};
ghost use Rattle.std.specs.List.{AllByRecursion};
ghost use Rattle.sr_base.specs.Fitting.{IsPoolOf};
ghost use Rattle.sr_base.specs.WordName.{HasWord, word_at};
ghost use Rattle.sr_base.specs.declared.change.Change.{Change as AChange};
ghost use Rattle.sr_core.specs.FirstPools.{first_words, listed};
ghost use Rattle.sr_core.specs.PlainWords.{ShowsWords};
ghost use Rattle.sr_law.specs.Pools.{pools_from};
ghost use Rattle.sr_machine.specs.Opening.{opening_words};
ghost use Rattle.sr_plain.specs.Actors.{HasActor};

use crate::PlainActor;
use sr_acts::MachineConfig;
use sr_base::{Layout, Pool, WordName};
use sr_core::PlainWords;
use sr_machine::Actor;
use std::alloc::{AllocError, Global};
use std::marker::Model;

/// The shared words in one thread. Each actor has them for a while, one after the other.
#[derive(Drop)]
pub struct PlainBoard {
    pub(crate) words: PlainWords,
}

impl Model for PlainBoard {
    ghost use Rattle.sr_core.specs.PlainWords.{HeldWords};

    ghost Value = { HeldWords };

    ghost view = { λ b. b.words };
}

impl PlainBoard {
    /// The words at the beginning: the first pools of the virtual addresses are named by their number 0.
    #[tactic(auto, using(crate::proofs::Openings::opens))]
    pub fn new(alloc: Global, layout: &Layout, first: &[Pool]) -> Result<PlainBoard, AllocError>
        requires vips { length first.now ≡ layout.now.vips }
        requires pools { AllByRecursion (IsPoolOf layout.now) first.now }
        ensures layout { IfOk result (λ b. b.layout ≡ layout.now) }
        ensures words { IfOk result (λ b. ShowsWords layout.now b.words (first_words layout.now (listed first.now) layout.now.vips)) }
        ensures opening { (changes : List AChange) → IfOk result (λ b. ShowsWords layout.now b.words (opening_words (record {
          layout = layout.now;
          pools = pools_from 0 first.now changes;
          changes = changes;
        }))) }
    {
        let words = PlainWords::opening(alloc, layout, first)?;
        Ok(PlainBoard { words })
    }

    /// The words at the beginning of a machine.
    pub fn opening(alloc: Global, config: &MachineConfig) -> Result<PlainBoard, AllocError>
        ensures layout { IfOk result (λ b. b.layout ≡ config.now.layout) }
        ensures words { IfOk result (λ b. ShowsWords config.now.layout b.words (opening_words config.now)) }
    {
        config.fits();
        let words = PlainWords::opening_of(alloc, config.layout(), config.pools())?;
        Ok(PlainBoard { words })
    }

    /// The word of a name of the layout.
    pub fn word(&self, at: WordName) -> u64
        requires { HasWord self.now.layout at }
        ensures { result ≡ word_at self.now.layout self.now.words at }
    {
        self.words.at(at)
    }

    /// The words as this actor's, for a while.
    pub fn as_actor(&mut self, actor: Actor) -> PlainActor<'_>
        requires { HasActor self.old.layout actor }
        ensures board { result.board.now ≡ self.old }
        ensures name { result.board.ghost_name ≡ self.entry.ghost_name }
        ensures actor { result.actor ≡ actor }
    {
        PlainActor { board: self, actor }
    }
}
