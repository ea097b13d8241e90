ghost use Rattle.std.specs.Prelude.{◌≡◌, ◌∷◌, ◌-◌, ◌<◌, ◌==◌, length, replicate, slice_set, IfOk, IfSome};
ghost use Rattle.sr_machine.specs.Deciding.{learned, learned_in, named_at, vip_at, with_named};
ghost use Rattle.sr_machine.specs.Reads.{steady};
ghost use Rattle.sr_machine.specs.Stores.{phase_word};
ghost use Rattle.sr_machine.specs.Taking.{is_current_at};
ghost use Rattle.sr_shadow.specs.Book.{count_of};
ghost use Rattle.sr_shadow.specs.Entry.{has_version};
ghost use Rattle.sr_update.specs.Numbers.{first_drained, first_number, is_drained, least_free, opening_rows, row_of, state_of, with_state};
ghost use Rattle.sr_acts.specs.Versions.{FitsVip};

use crate::named_row::NamedRow;
use sr_base::{Layout, Phase, Version, VipWord, layout_ranges};
use sr_machine::PoolUpdate;
use sr_shadow::{Entry, Ledger};
use sr_update::{NumberState, Numbers};
use std::alloc::{AllocError, Global};
use std::marker::Model;

/// What the controller knows of versions: the state of each, the pool that it names, and what the word of each virtual address holds.
#[derive(Drop)]
pub struct Versions {
    layout: Layout,
    numbers: Numbers,
    named: Vec<NamedRow>,
    vips: Vec<VipWord>,
}

impl Model for Versions {
    ghost use Rattle.std.specs.Prelude.{◌≡◌, length};
    ghost use Rattle.std.specs.List.{AllByRecursion};
    ghost use Rattle.sr_acts.specs.Versions.{FitsVip, HasRows, VersionsView};

    ghost Value = { VersionsView };

    ghost view = { λ v. record { layout = v.layout; numbers = v.numbers; named = v.named.items; vips = v.vips.items } };

    ghost invariant = { λ v. HasRows v.layout v.numbers × HasRows v.layout v.named.items × (length v.vips.items ≡ v.layout.vips)
        × AllByRecursion (FitsVip v.layout) v.vips.items };
}

impl Versions {
    /// Those of a layout, where version 0 of each virtual address names pool 1 and no update is under way.
    pub fn new(alloc: Global, layout: &Layout) -> Result<Versions, AllocError>
        ensures layout { IfOk result (λ v. v.layout ≡ layout.now) }
        ensures numbers { IfOk result (λ v. v.numbers ≡ opening_rows layout.now) }
        ensures named { IfOk result (λ v. v.named ≡ replicate layout.now.vips (1 ∷ replicate (layout.now.shape.versions - 1) 0)) }
        ensures vips { IfOk result (λ v. v.vips ≡ replicate layout.now.vips (steady 0)) }
    {
        layout_ranges(layout);
        let mut named = Vec::new(alloc);
        let mut vips = Vec::new(alloc);
        for _vip in 0..layout.vips() {
            named.push(NamedRow::new(layout.shape().versions))?;
            vips.push(steady_zero())?;
        }
        Ok(Versions {
            layout: *layout,
            numbers: Numbers::new(alloc, layout)?,
            named,
            vips,
        })
    }

    /// What the word of a virtual address holds; version 0 and no update where there is no such virtual address.
    pub fn vip(&self, vip: u8) -> VipWord
        ensures value { result ≡ vip_at self.now.vips vip }
        ensures fits { FitsVip self.now.layout result }
    {
        layout_ranges(&self.layout);
        if (vip as usize) < self.vips.len() {
            self.vips[vip as usize]
        } else {
            steady_zero()
        }
    }

    /// The version that an opener of the virtual address learns, if it isn't held.
    pub fn learned(&self, vip: u8) -> Version
        ensures value { result ≡ learned self.now.vips vip }
    {
        let word = self.vip(vip);
        match word.phase {
            Phase::Transit => word.next,
            _ => word.cur,
        }
    }

    /// The number of the pool that a version names; 0 for none.
    pub fn named(&self, vip: u8, version: Version) -> u64
        ensures { result ≡ named_at self.now.named vip version }
    {
        if (vip as usize) < self.named.len() {
            let row = &self.named[vip as usize];
            row.get(version.number())
        } else {
            0
        }
    }

    /// Whether a version may still be learned.
    #[tactic(auto, using(crate::proofs::Rows::no_vip_state, crate::proofs::Rows::no_version_state))]
    pub fn is_current(&self, vip: u8, version: Version) -> bool
        ensures { result ≡ is_current_at (state_of vip version self.now.numbers) }
    {
        if self.layout.vips() <= vip {
            return false;
        }
        if self.layout.shape().versions <= version.number() {
            return false;
        }
        matches!(self.numbers.state(vip, version), NumberState::Current)
    }

    /// The least version of a virtual address that is free.
    #[tactic(auto, using(crate::proofs::Rows::least_within))]
    pub fn least_free(&self, vip: u8) -> Option<Version>
        requires { vip < self.now.layout.vips }
        ensures value { result ≡ least_free vip self.now.numbers }
        ensures within { IfSome result (λ version. version < self.now.layout.shape.versions) }
    {
        self.numbers.least_free(vip)
    }

    /// The first version that drains and that no entry has.
    #[tactic(auto, using(crate::proofs::Rows::drained_vip, crate::proofs::Rows::drained_version))]
    pub fn first_drained(&self, book: &Ledger) -> Option<(u8, Version)>
        ensures value { result ≡ first_drained self.now.numbers book.now.book.entries }
        ensures vip { IfSome result (λ p. p.0 < self.now.layout.vips) }
        ensures version { IfSome result (λ p. p.1 < self.now.layout.shape.versions) }
    {
        self.numbers.first_drained(book.indexed())
    }

    /// A version has another state.
    pub fn set(&mut self, vip: u8, version: Version, state: NumberState)
        requires vip { vip < self.old.layout.vips }
        requires version { version < self.old.layout.shape.versions }
        ensures { self.new ≡ record self.old { numbers = with_state vip version state self.old.numbers } }
    {
        self.numbers.put(vip, version, state);
    }

    /// A version names a pool.
    pub fn name(&mut self, vip: u8, version: Version, pool: u64)
        requires vip { vip < self.old.layout.vips }
        requires version { version < self.old.layout.shape.versions }
        ensures { self.new ≡ record self.old { named = with_named vip version pool self.old.named } }
    {
        let row = &mut self.named[vip as usize];
        row.put(version.number(), pool);
    }

    /// The word of a virtual address is stored.
    pub fn store(&mut self, vip: u8, word: VipWord)
        requires vip { vip < self.old.layout.vips }
        requires fits { FitsVip self.old.layout word }
        ensures { self.new ≡ record self.old { vips = slice_set self.old.vips vip word } }
    {
        self.vips[vip as usize] = word;
    }
}

// No update, and version 0.
fn steady_zero() -> VipWord
    ensures { result ≡ steady 0 }
{
    VipWord {
        phase: Phase::Steady,
        cur: Version::zero(),
        next: Version::zero(),
    }
}

// The word of an update's virtual address in a phase.
pub(crate) fn phase_word(update: &PoolUpdate, phase: Phase) -> VipWord
    ensures { result ≡ phase_word update.now phase }
{
    match phase {
        Phase::Steady => VipWord {
            phase,
            cur: update.given,
            next: update.given,
        },
        _ => VipWord {
            phase,
            cur: update.replaced,
            next: update.given,
        },
    }
}

// Whether an entry has this virtual address and version.
pub(crate) fn has_version(vip: u8, version: Version, entry: &Entry) -> bool
    ensures { result ≡ has_version vip version entry.now }
{
    entry.key.vip == vip && entry.version.number() == version.number()
}
