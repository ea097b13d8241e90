ghost use Rattle.std.specs.Prelude.{◌≡◌, ◌+◌, List, [], OnOk};
ghost use Rattle.sr_law.specs.Final.{is_answered};
ghost use Rattle.sr_law.specs.declared.line.Line.{Line as ALine};
ghost use Rattle.std.specs.BTreeMap.{get};
ghost use Rattle.sr_audit.specs.Answers.{nth_cmp, TellsAnswers};
ghost use Rattle.sr_audit.specs.Index.{KeptWith};

use sr_base::Key;
use sr_law::Line;
use std::alloc::{AllocError, Global};
use std::collections::BTreeMap;

// What a held opener was answered: whether once alone, and whose opener the last answer was to, at which tick.
#[derive(Clone, Copy)]
pub(crate) struct Answered {
    once: bool,
    key: Key,
    out: u64,
}

// The answers to the held openers of the pipes.
#[derive(Drop)]
pub(crate) struct Answers {
    map: BTreeMap<(u8, u64), Answered>,
}

impl Answers {
    // Of no lines.
    pub(crate) fn new(alloc: Global) -> Answers
        ensures { TellsAnswers result [] }
    {
        Answers {
            map: BTreeMap::new(alloc),
        }
    }

    // What the nth held opener of this pipe was answered.
    fn answered(&self, pipe: u8, nth: u64) -> Option<Answered>
        ensures { result ≡ get nth_cmp self.now.map (pipe, nth) }
    {
        self.map.get(&(pipe, nth)).copied()
    }

    // One line more.
    pub(crate) fn absorb(&mut self, line: &Line) -> Result<(), AllocError>
        ensures { OnOk result (KeptWith TellsAnswers self.old self.new line.now) }
    {
        if let Line::Answer {
            out,
            pipe,
            nth,
            key,
            ..
        } = *line
        {
            let nth = nth as u64;
            let once = self.answered(pipe, nth).is_none();
            self.map.insert((pipe, nth), Answered { once, key, out })?;
        }
        Ok(())
    }

    // Whether the opener of this key, the nth that the pipe held, has one answer, and a right one.
    #[tactic(auto, using(crate::proofs::Answering::answered_once))]
    pub(crate) fn answer(&self, pipe: u8, nth: u64, key: Key, entered: u64) -> bool
        ensures { (all : List ALine) → TellsAnswers self.now all → result ≡ is_answered all pipe nth key entered }
    {
        match self.answered(pipe, nth) {
            Some(answer) => answer.once && answer.key.same(key) && entered < answer.out,
            None => false,
        }
    }
}
