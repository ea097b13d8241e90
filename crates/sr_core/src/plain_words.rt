ghost use Rattle.std.specs.Prelude.{◌≡◌, ℕ, ◌+◌, ◌<◌, IfOk, List, [], bit_or, length, replicate};
ghost use Rattle.std.specs.List.{AllByRecursion};
ghost use Rattle.sr_base.specs.Fitting.{FitsLayout, IsPoolOf};
ghost use Rattle.sr_base.specs.WordName.{HasWord, StoresApart, StoresStand, word_at, words_of};
ghost use Rattle.sr_machine.specs.Names.{rewritten, word_name};
ghost use Rattle.sr_machine.specs.Ops.{op_answer, op_name, op_words};
ghost use Rattle.sr_machine.specs.declared.name.Name.{Name as AName};
ghost use Rattle.sr_base.specs.declared.change.Change.{Change as AChange};
ghost use Rattle.sr_law.specs.Pools.{pools_from};
ghost use Rattle.sr_machine.specs.Opening.{opening_words};
ghost use Rattle.sr_core.specs.FirstPools.{first_words, listed, with_members};
ghost use Rattle.sr_core.specs.PlainWords.{ShowsWords};

use sr_base::{Layout, Pool, RowHead, WordName, layout_ranges, words_stand_apart};
use sr_law::Pools;
use sr_machine::{Name, Op};
use std::alloc::{AllocError, Global};
use std::marker::Model;

/// The shared words as a plain list, for one thread that makes the steps of all actors.
#[derive(Drop)]
pub struct PlainWords {
    layout: Layout,
    words: Vec<u64>,
}

impl Model for PlainWords {
    ghost use Rattle.std.specs.Prelude.{◌≡◌, vec_len};
    ghost use Rattle.sr_base.specs.WordName.{words_of};
    ghost use Rattle.sr_core.specs.PlainWords.{HeldWords};

    ghost Value = { HeldWords };

    ghost view = { λ w. record { layout = w.layout; words = w.words.items } };

    ghost invariant = { λ w. vec_len w.words ≡ words_of w.layout };
}

impl PlainWords {
    /// The words of a layout, each of which is 0.
    pub fn zeros(alloc: Global, layout: &Layout) -> Result<PlainWords, AllocError>
        ensures { IfOk result (λ w. w ≡ record { layout = layout.now; words = replicate (words_of layout.now) 0 }) }
    {
        Ok(PlainWords {
            layout: *layout,
            words: vec![in alloc; 0; layout.words()]?,
        })
    }

    /// The words at the beginning: the first pools of the virtual addresses are named by their number 0, and no tick was drawn but
    /// those of the lines that say so.
    pub fn opening(alloc: Global, layout: &Layout, first: &[Pool]) -> Result<PlainWords, AllocError>
        requires vips { length first.now ≡ layout.now.vips }
        requires pools { AllByRecursion (IsPoolOf layout.now) first.now }
        ensures layout { IfOk result (λ w. w.layout ≡ layout.now) }
        ensures words { IfOk result (λ w. ShowsWords layout.now w.words (first_words layout.now (listed first.now) layout.now.vips)) }
    {
        let mut words = PlainWords::zeros(alloc, layout)?;
        words.put(Name::Tick, layout.vips() as u64 + 1);
        for vip in 0..layout.vips() {
            words.give(vip, &first[vip as usize]);
        }
        Ok(words)
    }

    /// The same of the pools of a machine, of which the first ones are named.
    pub fn opening_of(
        alloc: Global,
        layout: &Layout,
        pools: &Pools,
    ) -> Result<PlainWords, AllocError>
        requires { (first : List (List ℕ)) × (changes : List AChange) × FitsLayout layout.now first changes
            × (pools.now ≡ pools_from 0 first changes) }
        ensures layout { IfOk result (λ w. w.layout ≡ layout.now) }
        ensures words { IfOk result (λ w. (changes : List AChange) → ShowsWords layout.now w.words
            (opening_words (record { layout = layout.now; pools = pools.now; changes = changes }))) }
    {
        let mut words = PlainWords::zeros(alloc, layout)?;
        words.put(Name::Tick, layout.vips() as u64 + 1);
        for vip in 0..layout.vips() {
            if let Some(pool) = pools.of(vip, 1) {
                words.give(vip, pool);
            }
        }
        Ok(words)
    }

    /// The first pool of a virtual address is named by its number 0.
    pub fn give(&mut self, vip: u8, pool: &Pool)
        requires vip { vip < self.old.layout.vips }
        requires pool { IsPoolOf self.old.layout pool.now }
        ensures layout { self.new.layout ≡ self.old.layout }
        ensures words { (f : ℕ → List ℕ) → f vip ≡ pool.now → ShowsWords self.old.layout self.old.words (first_words self.old.layout f vip)
            → ShowsWords self.new.layout self.new.words (first_words self.old.layout f (vip + 1)) }
    {
        layout_ranges(&self.layout);
        let head = RowHead {
            size: pool.size(),
            pool: 1,
        };
        self.put(Name::Head { vip, version: 0 }, head.pack());
        self.put_members(vip, pool);
    }

    // The members of a virtual address's first pool.
    #[tactic(auto, using(crate::proofs::FirstPools::no_members, crate::proofs::FirstPools::member_more, crate::proofs::FirstPools::shows_same))]
    fn put_members(&mut self, vip: u8, pool: &Pool)
        requires vip { vip < self.old.layout.vips }
        requires pool { IsPoolOf self.old.layout pool.now }
        ensures layout { self.new.layout ≡ self.old.layout }
        ensures words { (words : AName → ℕ) → ShowsWords self.old.layout self.old.words words
            → ShowsWords self.new.layout self.new.words (with_members words vip pool.now (length pool.now)) }
    {
        layout_ranges(&self.layout);
        for index in 0..pool.size() {
            self.put(
                Name::Member {
                    vip,
                    version: 0,
                    index,
                },
                pool.at(index) as u64,
            );
        }
    }

    /// The words, in the order of the layout.
    pub fn list(&self) -> &[u64]
        ensures words { result.now ≡ self.now.words }
        ensures length { length result.now ≡ words_of self.now.layout }
    {
        self.words.as_slice()
    }

    /// The word of a name.
    pub fn word(&self, name: Name) -> u64
        requires { HasWord self.now.layout (word_name name) }
        ensures { result ≡ word_at self.now.layout self.now.words (word_name name) }
    {
        self.words[self.layout.place(name.word())]
    }

    /// The word of a name of the layout.
    pub fn at(&self, at: WordName) -> u64
        requires { HasWord self.now.layout at }
        ensures { result ≡ word_at self.now.layout self.now.words at }
    {
        self.words[self.layout.place(at)]
    }

    // The word of a name becomes another one.
    #[tactic(auto, using(crate::proofs::Showing::shows_store))]
    fn put(&mut self, name: Name, value: u64)
        requires { HasWord self.old.layout (word_name name) }
        ensures layout { self.new.layout ≡ self.old.layout }
        ensures words { (words : AName → ℕ) → ShowsWords self.old.layout self.old.words words
            → ShowsWords self.new.layout self.new.words (rewritten words name value) }
    {
        words_stand_apart(&self.layout);
        let at = self.layout.place(name.word());
        self.words[at] = value;
    }

    /// Makes a step, and answers what its actor learns.
    pub fn make(&mut self, op: Op) -> u64
        requires { HasWord self.old.layout (word_name (op_name op)) }
        ensures layout { self.new.layout ≡ self.old.layout }
        ensures answer { (words : AName → ℕ) → ShowsWords self.old.layout self.old.words words
            → result ≡ op_answer op (words (op_name op)) }
        ensures words { (words : AName → ℕ) → ShowsWords self.old.layout self.old.words words
            → ShowsWords self.new.layout self.new.words (op_words words op) }
    {
        match op {
            Op::Loads { name } => self.word(name),
            Op::Stores { name, value } => {
                self.put(name, value);
                value
            }
            Op::Swaps { name, value } => {
                let found = self.word(name);
                self.put(name, value);
                found
            }
            Op::Adds { name, by } => {
                let found = self.word(name);
                self.put(name, found.wrapping_add(by));
                found
            }
            Op::Ors { name, bits } => {
                let found = self.word(name);
                self.put(name, found | bits);
                found
            }
        }
    }
}
