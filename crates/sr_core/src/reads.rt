//! How a loaded word is read. Every number is read as something that the layout has.

ghost use Rattle.std.specs.Prelude.{◌≡◌, ◌<◌, ◌≤◌, ◌&&◌, nat_lt, if◌then◌else◌, Some};
ghost use Rattle.sr_base.specs.WordName.{HasPlace};
ghost use Rattle.sr_hash.specs.Uses.{digest_of};
ghost use Rattle.sr_machine.specs.Reads.{cell_says, filter_bit, has_bit, head_in, read_flag, read_head, read_server, read_vip, row_says, says, steady, vip_in};
ghost use Rattle.sr_machine.specs.declared.said.Said.TheVariants.{Live, Nothing};
ghost use Rattle.sr_core.specs.Ranges.{SaidFits};

use sr_base::{
    FullWord, Key, Layout, Phase, Place, RowHead, SlotWord, Version, VipWord, layout_ranges,
};
use sr_hash::digest;
use sr_machine::Said;

// No update, and version 0.
fn steady_zero() -> VipWord
    ensures { result ≡ steady 0 }
{
    VipWord {
        phase: Phase::Steady,
        cur: Version::zero(),
        next: Version::zero(),
    }
}

/// What the word of a virtual address says.
#[tactic(auto, unfolding(sr_machine::specs::Reads::read_vip))]
pub fn read_vip(layout: &Layout, x: u64) -> VipWord
    ensures value { result ≡ read_vip layout.now x }
    ensures cur { result.cur < layout.now.shape.versions }
    ensures next { result.next < layout.now.shape.versions }
{
    layout_ranges(layout);
    vip_in(layout, VipWord::unpack(x))
}

fn vip_in(layout: &Layout, word: Option<VipWord>) -> VipWord
    ensures value { result ≡ vip_in layout.now word }
    ensures cur { result.cur < layout.now.shape.versions }
    ensures next { result.next < layout.now.shape.versions }
{
    layout_ranges(layout);
    let versions = layout.shape().versions;
    match word {
        None => steady_zero(),
        Some(w) => {
            if w.cur.number() < versions && w.next.number() < versions {
                w
            } else {
                steady_zero()
            }
        }
    }
}

// What the word at a place says to a packet of the key.
#[tactic(auto, unfolding(sr_machine::specs::Reads::says))]
pub(crate) fn says(layout: &Layout, place: Place, key: Key, x: u64) -> Said
    requires { HasPlace layout.now.shape place }
    ensures value { result ≡ says layout.now place key x }
    ensures version { SaidFits layout.now result }
{
    match place {
        Place::Slot { way, .. } => match SlotWord::unpack(x) {
            Some(word) => cell_says(layout, way, key, &word),
            None => Said::Nothing,
        },
        Place::Row { .. } => match FullWord::unpack(x) {
            Some(word) => row_says(layout, key, &word),
            None => Said::Nothing,
        },
    }
}

// What a cell of this way says.
fn cell_says(layout: &Layout, way: u8, key: Key, word: &SlotWord) -> Said
    requires { (1 ≤ way) × (way ≤ 2) }
    ensures value { result ≡ cell_says layout.now way key (Some word.now) }
    ensures version { SaidFits layout.now result }
{
    layout_ranges(layout);
    digest_says(
        layout,
        way,
        key,
        digest(way, key, layout.shape().digest_bits),
        word,
    )
}

/// What a cell of this way says to a packet of the key, whose digest of the way this is.
pub fn digest_says(layout: &Layout, way: u8, key: Key, own: u16, word: &SlotWord) -> Said
    requires { own ≡ digest_of way key layout.now.shape.digest_bits }
    ensures value { result ≡ cell_says layout.now way key (Some word.now) }
    ensures version { SaidFits layout.now result }
{
    let _ = way;
    match word {
        SlotWord::Empty => Said::Nothing,
        SlotWord::Reserved { vip, digest } => {
            if *vip == key.vip && *digest == own {
                Said::Reserved
            } else {
                Said::Nothing
            }
        }
        SlotWord::Live {
            vip,
            digest,
            version,
        } => live_if(layout, *vip == key.vip && *digest == own, *version),
    }
}

/// What a row says.
pub fn row_says(layout: &Layout, key: Key, word: &FullWord) -> Said
    ensures value { result ≡ row_says layout.now key (Some word.now) }
    ensures version { SaidFits layout.now result }
{
    match word {
        FullWord::Empty => Said::Nothing,
        FullWord::Reserved { key: own } => {
            if key.same(*own) {
                Said::Reserved
            } else {
                Said::Nothing
            }
        }
        FullWord::Live { key: own, version } => live_if(layout, key.same(*own), *version),
    }
}

// A live entry that was found, where the layout has its version.
fn live_if(layout: &Layout, found: bool, version: Version) -> Said
    ensures value { result ≡ (if found && nat_lt version layout.now.shape.versions then Live version else Nothing) }
    ensures version { SaidFits layout.now result }
{
    if found && version.number() < layout.shape().versions {
        Said::Live(version)
    } else {
        Said::Nothing
    }
}

/// The head of a version.
#[tactic(auto, unfolding(sr_machine::specs::Reads::read_head))]
pub fn read_head(layout: &Layout, x: u64) -> RowHead
    ensures value { result ≡ read_head layout.now x }
    ensures some { 1 ≤ result.size }
    ensures most { result.size ≤ layout.now.shape.pool_max }
{
    layout_ranges(layout);
    match RowHead::unpack(x) {
        None => RowHead { size: 1, pool: 0 },
        Some(head) => {
            if head.size <= layout.shape().pool_max {
                head
            } else {
                RowHead { size: 1, pool: 0 }
            }
        }
    }
}

/// A server of the layout.
#[tactic(auto, unfolding(sr_machine::specs::Reads::read_server))]
pub fn read_server(layout: &Layout, x: u64) -> u32
    ensures value { result ≡ read_server layout.now x }
    ensures below { result < layout.now.servers }
{
    layout_ranges(layout);
    if x < layout.servers() as u64 {
        x as u32
    } else {
        0
    }
}

/// Whether a flag is set.
#[tactic(auto, unfolding(sr_machine::specs::Reads::read_flag))]
pub fn read_flag(x: u64) -> bool
    ensures { result ≡ read_flag x }
{
    x == 1
}

/// Whether the bit of a place of the transit filter is set in its word.
#[tactic(auto, unfolding(sr_machine::specs::Reads::has_bit))]
pub fn has_bit(bit: u32, x: u64) -> bool
    ensures { result ≡ has_bit bit x }
{
    x >> (bit % 64) & 1 == 1
}
