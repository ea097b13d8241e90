ghost use Rattle.std.specs.Prelude.{◌≡◌, []};
ghost use Rattle.sr_base.specs.WordName.{HasWord, words_of};
ghost use Rattle.sr_machine.specs.Boards.{IsNext};
ghost use Rattle.sr_machine.specs.Names.{name_for};
ghost use Rattle.sr_machine.specs.declared.op.Op.TheVariants.{Adds, Loads, Ors, Stores, Swaps};
ghost use Rattle.sr_words.specs.Seats.{together};
ghost use Rattle.sr_words.specs.Steps.{FitsSeat, Makes};
ghost use Rattle.sr_words.specs.declared.heard.Heard.TheVariants.{Nothing};

use crate::steps::{add_told, load_told, or_told, store_told, swap_told};
use crate::{Heard, Seated, Together, Words};
use atomic_table::Seat;
use sr_base::{Layout, Packet, WordName, words_stand_apart};
use sr_machine::Board;
use std::marker::Brand;

/// One actor's access to words that threads share. It moves to the actor's thread.
#[derive(Drop)]
pub struct WordBoard<'a> {
    pub(crate) words: &'a Words,
    pub(crate) layout: Layout,
    pub(crate) seat: Seat<(), Seated>,
    pub(crate) heard: Heard,
    pub(crate) ghost own: { seat.table_id ≡ words.now.table_id },
    pub(crate) ghost free: { seat.me.1 ≡ [] },
    pub(crate) ghost placed: { layout ≡ words.now.key.layout },
    pub(crate) ghost wide: { words.now.table_id.words ≡ words_of layout },
}

impl Board for WordBoard<'_> {
    ghost use Rattle.sr_words.specs.Besides.{beside_of};
    ghost use Rattle.sr_words.specs.Steps.{FitsSeat};

    ghost fits = { λ b. FitsSeat b.words.now.key b.seat.me.0 b.heard };

    ghost beside = { λ b. beside_of b.layout b.seat.table_id b.seat.me.0 };

    ghost shows = { λ b words. ⊥ };

    ghost rests = { λ b. ⊥ };

    ghost reports = { λ b. 0 };

    fn enter(&mut self, packet: Packet) {
        self.heard.enter(packet);
    }

    fn due(&mut self, ms: u64) {
        self.heard.due(ms);
    }

    fn refuse(&mut self) {
        self.heard.refuse();
    }

    fn load(&mut self, at: WordName) -> u64 {
        self.loads(at)
    }

    fn store(&mut self, at: WordName, value: u64) {
        self.stores(at, value);
    }

    fn swap(&mut self, at: WordName, value: u64) -> u64 {
        self.swaps(at, value)
    }

    fn add(&mut self, at: WordName, by: u64) -> u64 {
        self.adds(at, by)
    }

    fn or(&mut self, at: WordName, bits: u64) -> u64 {
        self.ors(at, bits)
    }
}

// Each step is the next one of the seat's first actor, and is made in a state that events lead to.
impl WordBoard<'_> {
    // The word.
    pub(crate) fn loads(&mut self, at: WordName) -> u64
        requires named { HasWord self.old.layout at }
        requires next { IsNext (FitsSeat self.old.words.now.key self.old.seat.me.0 self.old.heard) (Loads (name_for at)) }
        ensures made { Makes self.old.words.now.key self.old.heard self.old.seat.me.0 result self.new.seat.me.0 }
        ensures heard { self.new.heard ≡ Nothing }
        ensures key { self.new.words.now.key ≡ self.old.words.now.key }
        ensures layout { self.new.layout ≡ self.old.layout }
        ensures table { self.new.seat.table_id ≡ self.old.seat.table_id }
    {
        let found = load_told::<Brand>(self.words, &self.layout, &mut self.seat, &self.heard, at);
        self.heard = Heard::Nothing;
        found
    }

    // A number is stored.
    pub(crate) fn stores(&mut self, at: WordName, value: u64)
        requires named { HasWord self.old.layout at }
        requires next { IsNext (FitsSeat self.old.words.now.key self.old.seat.me.0 self.old.heard) (Stores (name_for at) value) }
        ensures made { Makes self.old.words.now.key self.old.heard self.old.seat.me.0 value self.new.seat.me.0 }
        ensures heard { self.new.heard ≡ Nothing }
        ensures key { self.new.words.now.key ≡ self.old.words.now.key }
        ensures layout { self.new.layout ≡ self.old.layout }
        ensures table { self.new.seat.table_id ≡ self.old.seat.table_id }
    {
        store_told::<Brand>(
            self.words,
            &self.layout,
            &mut self.seat,
            &self.heard,
            at,
            value,
        );
        self.heard = Heard::Nothing;
    }

    // A number is stored, and the word before it answered.
    pub(crate) fn swaps(&mut self, at: WordName, value: u64) -> u64
        requires named { HasWord self.old.layout at }
        requires next { IsNext (FitsSeat self.old.words.now.key self.old.seat.me.0 self.old.heard) (Swaps (name_for at) value) }
        ensures made { Makes self.old.words.now.key self.old.heard self.old.seat.me.0 result self.new.seat.me.0 }
        ensures heard { self.new.heard ≡ Nothing }
        ensures key { self.new.words.now.key ≡ self.old.words.now.key }
        ensures layout { self.new.layout ≡ self.old.layout }
        ensures table { self.new.seat.table_id ≡ self.old.seat.table_id }
    {
        let found = swap_told::<Brand>(
            self.words,
            &self.layout,
            &mut self.seat,
            &self.heard,
            at,
            value,
        );
        self.heard = Heard::Nothing;
        found
    }

    // A number is added, of 64 bits, and the word before answered.
    pub(crate) fn adds(&mut self, at: WordName, by: u64) -> u64
        requires named { HasWord self.old.layout at }
        requires next { IsNext (FitsSeat self.old.words.now.key self.old.seat.me.0 self.old.heard) (Adds (name_for at) by) }
        ensures made { Makes self.old.words.now.key self.old.heard self.old.seat.me.0 result self.new.seat.me.0 }
        ensures heard { self.new.heard ≡ Nothing }
        ensures key { self.new.words.now.key ≡ self.old.words.now.key }
        ensures layout { self.new.layout ≡ self.old.layout }
        ensures table { self.new.seat.table_id ≡ self.old.seat.table_id }
    {
        let found = add_told::<Brand>(
            self.words,
            &self.layout,
            &mut self.seat,
            &self.heard,
            at,
            by,
        );
        self.heard = Heard::Nothing;
        found
    }

    // Bits are set, and the word before answered.
    pub(crate) fn ors(&mut self, at: WordName, bits: u64) -> u64
        requires named { HasWord self.old.layout at }
        requires next { IsNext (FitsSeat self.old.words.now.key self.old.seat.me.0 self.old.heard) (Ors (name_for at) bits) }
        ensures made { Makes self.old.words.now.key self.old.heard self.old.seat.me.0 result self.new.seat.me.0 }
        ensures heard { self.new.heard ≡ Nothing }
        ensures key { self.new.words.now.key ≡ self.old.words.now.key }
        ensures layout { self.new.layout ≡ self.old.layout }
        ensures table { self.new.seat.table_id ≡ self.old.seat.table_id }
    {
        let found = or_told::<Brand>(
            self.words,
            &self.layout,
            &mut self.seat,
            &self.heard,
            at,
            bits,
        );
        self.heard = Heard::Nothing;
        found
    }

    // Its seat and another one are joined.
    pub(crate) fn join(&mut self, other: WordBoard<'_>)
        requires { other.seat.table_id ≡ self.old.seat.table_id }
        ensures seat { self.new.seat.me.0 ≡ together self.old.seat.me.0 other.entry.seat.me.0 }
        ensures heard { self.new.heard ≡ self.old.heard }
        ensures key { self.new.words.now.key ≡ self.old.words.now.key }
        ensures layout { self.new.layout ≡ self.old.layout }
        ensures table { self.new.seat.table_id ≡ self.old.seat.table_id }
    {
        words_stand_apart(&self.layout);
        let WordBoard {
            words: _,
            layout: _,
            seat,
            heard: _,
        } = other;
        self.words.join_seat::<Together>(&mut self.seat, seat);
    }
}
