//! Single steps of a seat's first actor.

ghost use Rattle.std.specs.Prelude.{◌≡◌, ◌<◌, []};
ghost use Rattle.sr_base.specs.WordName.{HasWord, words_of};
ghost use Rattle.sr_machine.specs.Boards.{IsNext};
ghost use Rattle.sr_machine.specs.Names.{name_for};
ghost use Rattle.sr_machine.specs.declared.op.Op.TheVariants.{Adds, Loads, Ors, Stores, Swaps};
ghost use Rattle.sr_words.specs.Boarding.{AreAtRest};
ghost use Rattle.sr_words.specs.Steps.{FitsSeat, Learns, Looks, Makes};

use crate::{Heard, Learning, Looking, Making, Seated, Telling, Words};
use atomic_table::Seat;
use sr_base::{Layout, WordName, words_stand_apart};
use sr_inv::every_state_meets_the_invariant;

// The word.
pub(crate) fn load_told<T: Telling>(
    words: &Words,
    layout: &Layout,
    seat: &mut Seat<(), Seated>,
    heard: &Heard,
    at: WordName,
) -> u64
    requires heard { heard.now ≡ T.heard }
    requires config { words.now.key ≡ T.config }
    requires layout { layout.now ≡ words.now.key.layout }
    requires wide { words.now.table_id.words ≡ words_of layout.now }
    requires table { seat.old.table_id ≡ words.now.table_id }
    requires free { seat.old.me.1 ≡ [] }
    requires named { HasWord layout.now at }
    requires next { IsNext (FitsSeat words.now.key seat.old.me.0 heard.now) (Loads (name_for at)) }
    ensures table { seat.new.table_id ≡ seat.old.table_id }
    ensures free { seat.new.me.1 ≡ [] }
    ensures made { Makes words.now.key heard.now seat.old.me.0 result seat.new.me.0 }
{
    words_stand_apart(layout);
    heard.packet_ranges();
    words.load::<Making<T>>(seat, layout.place(at))
}

// A number is stored.
pub(crate) fn store_told<T: Telling>(
    words: &Words,
    layout: &Layout,
    seat: &mut Seat<(), Seated>,
    heard: &Heard,
    at: WordName,
    value: u64,
)
    requires heard { heard.now ≡ T.heard }
    requires config { words.now.key ≡ T.config }
    requires layout { layout.now ≡ words.now.key.layout }
    requires wide { words.now.table_id.words ≡ words_of layout.now }
    requires table { seat.old.table_id ≡ words.now.table_id }
    requires free { seat.old.me.1 ≡ [] }
    requires named { HasWord layout.now at }
    requires next { IsNext (FitsSeat words.now.key seat.old.me.0 heard.now) (Stores (name_for at) value) }
    ensures table { seat.new.table_id ≡ seat.old.table_id }
    ensures free { seat.new.me.1 ≡ [] }
    ensures made { Makes words.now.key heard.now seat.old.me.0 value seat.new.me.0 }
{
    words_stand_apart(layout);
    heard.packet_ranges();
    words.store::<Making<T>>(seat, layout.place(at), value);
}

// A number is stored, and the word before it answered.
pub(crate) fn swap_told<T: Telling>(
    words: &Words,
    layout: &Layout,
    seat: &mut Seat<(), Seated>,
    heard: &Heard,
    at: WordName,
    value: u64,
) -> u64
    requires heard { heard.now ≡ T.heard }
    requires config { words.now.key ≡ T.config }
    requires layout { layout.now ≡ words.now.key.layout }
    requires wide { words.now.table_id.words ≡ words_of layout.now }
    requires table { seat.old.table_id ≡ words.now.table_id }
    requires free { seat.old.me.1 ≡ [] }
    requires named { HasWord layout.now at }
    requires next { IsNext (FitsSeat words.now.key seat.old.me.0 heard.now) (Swaps (name_for at) value) }
    ensures table { seat.new.table_id ≡ seat.old.table_id }
    ensures free { seat.new.me.1 ≡ [] }
    ensures made { Makes words.now.key heard.now seat.old.me.0 result seat.new.me.0 }
{
    words_stand_apart(layout);
    heard.packet_ranges();
    words.swap::<Making<T>>(seat, layout.place(at), value)
}

// A number is added, of 64 bits, and the word before answered.
pub(crate) fn add_told<T: Telling>(
    words: &Words,
    layout: &Layout,
    seat: &mut Seat<(), Seated>,
    heard: &Heard,
    at: WordName,
    by: u64,
) -> u64
    requires heard { heard.now ≡ T.heard }
    requires config { words.now.key ≡ T.config }
    requires layout { layout.now ≡ words.now.key.layout }
    requires wide { words.now.table_id.words ≡ words_of layout.now }
    requires table { seat.old.table_id ≡ words.now.table_id }
    requires free { seat.old.me.1 ≡ [] }
    requires named { HasWord layout.now at }
    requires next { IsNext (FitsSeat words.now.key seat.old.me.0 heard.now) (Adds (name_for at) by) }
    ensures table { seat.new.table_id ≡ seat.old.table_id }
    ensures free { seat.new.me.1 ≡ [] }
    ensures made { Makes words.now.key heard.now seat.old.me.0 result seat.new.me.0 }
{
    words_stand_apart(layout);
    heard.packet_ranges();
    words.fetch_add::<Making<T>>(seat, layout.place(at), by)
}

// Bits are set, and the word before answered.
pub(crate) fn or_told<T: Telling>(
    words: &Words,
    layout: &Layout,
    seat: &mut Seat<(), Seated>,
    heard: &Heard,
    at: WordName,
    bits: u64,
) -> u64
    requires heard { heard.now ≡ T.heard }
    requires config { words.now.key ≡ T.config }
    requires layout { layout.now ≡ words.now.key.layout }
    requires wide { words.now.table_id.words ≡ words_of layout.now }
    requires table { seat.old.table_id ≡ words.now.table_id }
    requires free { seat.old.me.1 ≡ [] }
    requires named { HasWord layout.now at }
    requires next { IsNext (FitsSeat words.now.key seat.old.me.0 heard.now) (Ors (name_for at) bits) }
    ensures table { seat.new.table_id ≡ seat.old.table_id }
    ensures free { seat.new.me.1 ≡ [] }
    ensures made { Makes words.now.key heard.now seat.old.me.0 result seat.new.me.0 }
{
    words_stand_apart(layout);
    heard.packet_ranges();
    words.fetch_or::<Making<T>>(seat, layout.place(at), bits)
}

// What the seat's actors know.
pub(crate) fn look_told<T: Telling>(words: &Words, seat: &mut Seat<(), Seated>, heard: &Heard)
    requires heard { heard.now ≡ T.heard }
    requires config { words.now.key ≡ T.config }
    requires wide { 0 < words.now.table_id.words }
    requires table { seat.old.table_id ≡ words.now.table_id }
    requires free { seat.old.me.1 ≡ [] }
    ensures table { seat.new.table_id ≡ seat.old.table_id }
    ensures free { seat.new.me.1 ≡ [] }
    ensures looked { Looks words.now.key heard.now seat.old.me.0 seat.new.me.0 }
{
    heard.packet_ranges();
    words.load::<Looking<T>>(seat, 0);
}

// The seat's actors are all that there are, at rest: it comes to know the words.
pub(crate) fn learn_told<T: Telling>(words: &Words, seat: &mut Seat<(), Seated>, heard: &Heard)
    requires heard { heard.now ≡ T.heard }
    requires config { words.now.key ≡ T.config }
    requires wide { 0 < words.now.table_id.words }
    requires table { seat.old.table_id ≡ words.now.table_id }
    requires free { seat.old.me.1 ≡ [] }
    requires all { AreAtRest words.now.key.layout seat.old.me.0.actors }
    ensures table { seat.new.table_id ≡ seat.old.table_id }
    ensures free { seat.new.me.1 ≡ [] }
    ensures learned { Learns words.now.key heard.now seat.old.me.0 seat.new.me.0 }
{
    every_state_meets_the_invariant();
    heard.packet_ranges();
    words.load::<Learning<T>>(seat, 0);
}
