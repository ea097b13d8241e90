//! The words that the controller stores, and how it reads what it took.

ghost use Rattle.std.specs.Prelude.{◌≡◌, ◌<◌, ◌%◌};
ghost use Rattle.sr_base.specs.WordName.{HasPlace, HasWord};
ghost use Rattle.sr_machine.specs.Names.{word_name};
ghost use Rattle.sr_machine.specs.Reads.{live_word, read_flag, read_report, reserved_word};
ghost use Rattle.sr_machine.specs.Stages.{ring_cell};

use sr_base::{FullWord, Key, Layout, Place, RingWord, SlotWord, Version, layout_ranges};
use sr_hash::digest;
use sr_machine::Name;

// The cell of a ring for a word of this number.
pub(crate) fn ring_cell(layout: &Layout, pipe: u8, n: u64) -> Name
    requires { pipe < layout.now.shape.pipes }
    ensures value { result ≡ ring_cell layout.now pipe n }
    ensures named { HasWord layout.now (word_name result) }
{
    layout_ranges(layout);
    Name::Ring {
        pipe,
        cell: (n % layout.shape().ring as u64) as u32,
    }
}

// The report that a word of a ring is, where the layout has its virtual address.
#[tactic(auto, unfolding(sr_machine::specs::Reads::read_report))]
pub(crate) fn read_report(layout: &Layout, x: u64) -> Option<RingWord>
    ensures { result ≡ read_report layout.now x }
{
    let word = RingWord::unpack(x)?;
    if word.key.vip < layout.vips() {
        Some(word)
    } else {
        None
    }
}

// Whether a hit is told.
#[tactic(auto, unfolding(sr_machine::specs::Reads::read_flag))]
pub(crate) fn read_flag(x: u64) -> bool
    ensures { result ≡ read_flag x }
{
    x == 1
}

// The word of a place that is reserved for a key.
#[tactic(auto, unfolding(sr_machine::specs::Reads::reserved_word))]
pub(crate) fn reserved_word(layout: &Layout, place: Place, key: Key) -> u64
    requires { HasPlace layout.now.shape place }
    ensures { result ≡ reserved_word layout.now place key }
{
    layout_ranges(layout);
    match place {
        Place::Slot { way, .. } => {
            let word = SlotWord::Reserved {
                vip: key.vip,
                digest: digest(way, key, layout.shape().digest_bits),
            };
            word.pack()
        }
        Place::Row { .. } => {
            let word = FullWord::Reserved { key };
            word.pack()
        }
    }
}

// The word of a place at which a key is live, with a version.
#[tactic(auto, unfolding(sr_machine::specs::Reads::live_word))]
pub(crate) fn live_word(layout: &Layout, place: Place, key: Key, version: Version) -> u64
    requires { HasPlace layout.now.shape place }
    ensures { result ≡ live_word layout.now place key version }
{
    layout_ranges(layout);
    match place {
        Place::Slot { way, .. } => {
            let word = SlotWord::Live {
                vip: key.vip,
                digest: digest(way, key, layout.shape().digest_bits),
                version,
            };
            word.pack()
        }
        Place::Row { .. } => {
            let word = FullWord::Live { key, version };
            word.pack()
        }
    }
}
