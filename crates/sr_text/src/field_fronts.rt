//! Keys, kinds, places and verdicts at the front of bytes, each with its ending.
ghost use Rattle.std.specs.Prelude.{◌≡◌, option_map};
ghost use Rattle.sr_text.specs.Fronts.{address_front, choice_front, down_front, key_front, kind_front, place_front, plain_front, row_front, slot_front, to_front, verdict_front};

use crate::numbers::{field_front, u8_front, u16_front, u32_front, u64_front, version_front};
use crate::word::after_word;
use sr_base::{Key, Kind, Place, Version};
use sr_law::{HeldBy, Verdict};

// An IPv4 address, and what follows the colon behind it.
#[tactic(auto, unfolding(crate::specs::Fronts::address_front))]
fn address_front(bytes: &[u8]) -> Option<(u32, &[u8])>
    ensures { option_map (λ x. (x.0, x.1.now)) result ≡ address_front bytes.now }
{
    let (a, rest) = u8_front(b'.', bytes)?;
    let (b, rest) = u8_front(b'.', rest)?;
    let (c, rest) = u8_front(b'.', rest)?;
    let (d, rest) = u8_front(b':', rest)?;
    Some((
        ((a as u32 * 256 + b as u32) * 256 + c as u32) * 256 + d as u32,
        rest,
    ))
}

/// A key, and what follows the byte behind it.
#[tactic(auto, unfolding(crate::specs::Fronts::key_front))]
pub(crate) fn key_front(ending: u8, bytes: &[u8]) -> Option<(Key, &[u8])>
    ensures { option_map (λ x. (x.0, x.1.now)) result ≡ key_front ending bytes.now }
{
    let (vip, rest) = field_front(15, b'/', bytes)?;
    let (ip, rest) = address_front(rest)?;
    let (port, rest) = u16_front(ending, rest)?;
    let key = Key::new(vip as u8, ip, port)?;
    Some((key, rest))
}

/// What a packet is to its connection, and what follows the space behind it.
#[tactic(auto, unfolding(crate::specs::Fronts::kind_front))]
pub(crate) fn kind_front(bytes: &[u8]) -> Option<(Kind, &[u8])>
    ensures { option_map (λ x. (x.0, x.1.now)) result ≡ kind_front bytes.now }
{
    if let Some(rest) = after_word(b"open ", bytes) {
        return Some((Kind::Opener, rest));
    }
    if let Some(rest) = after_word(b"data ", bytes) {
        return Some((Kind::Carry, rest));
    }
    let rest = after_word(b"end ", bytes)?;
    Some((Kind::Ending, rest))
}

/// A place of the tables, and what follows the line feed behind it.
#[tactic(auto, unfolding(crate::specs::Fronts::place_front))]
pub(crate) fn place_front(bytes: &[u8]) -> Option<(Place, &[u8])>
    ensures { option_map (λ x. (x.0, x.1.now)) result ≡ place_front bytes.now }
{
    if let Some(rest) = after_word(b"w", bytes) {
        return slot_front(rest);
    }
    let rest = after_word(b"f", bytes)?;
    row_front(rest)
}

// Way, bucket and cell.
#[tactic(auto, unfolding(crate::specs::Fronts::slot_front))]
fn slot_front(bytes: &[u8]) -> Option<(Place, &[u8])>
    ensures { option_map (λ x. (x.0, x.1.now)) result ≡ slot_front bytes.now }
{
    let (way, rest) = u8_front(b'b', bytes)?;
    let (bucket, rest) = u32_front(b'c', rest)?;
    let (cell, rest) = u8_front(b'\n', rest)?;
    Some((Place::Slot { way, bucket, cell }, rest))
}

// A row.
#[tactic(auto, unfolding(crate::specs::Fronts::row_front))]
fn row_front(bytes: &[u8]) -> Option<(Place, &[u8])>
    ensures { option_map (λ x. (x.0, x.1.now)) result ≡ row_front bytes.now }
{
    let (row, rest) = u32_front(b'\n', bytes)?;
    Some((Place::Row { row }, rest))
}

/// What became of a packet, and what follows the line feed behind it.
#[tactic(auto, unfolding(crate::specs::Fronts::verdict_front))]
pub(crate) fn verdict_front(bytes: &[u8]) -> Option<(Verdict, &[u8])>
    ensures { option_map (λ x. (x.0, x.1.now)) result ≡ verdict_front bytes.now }
{
    if let Some(rest) = after_word(b"to ", bytes) {
        return to_front(rest);
    }
    if let Some(rest) = after_word(b"down ", bytes) {
        return down_front(rest);
    }
    plain_front(bytes)
}

// Where a packet went.
#[tactic(auto, unfolding(crate::specs::Fronts::to_front))]
fn to_front(bytes: &[u8]) -> Option<(Verdict, &[u8])>
    ensures { option_map (λ x. (x.0, x.1.now)) result ≡ to_front bytes.now }
{
    let Some((server, version, pool, rest)) = choice_front(bytes) else {
        return None;
    };
    Some((
        Verdict::To {
            server,
            version,
            pool,
        },
        rest,
    ))
}

// Where it would have gone.
#[tactic(auto, unfolding(crate::specs::Fronts::down_front))]
fn down_front(bytes: &[u8]) -> Option<(Verdict, &[u8])>
    ensures { option_map (λ x. (x.0, x.1.now)) result ≡ down_front bytes.now }
{
    let Some((server, version, pool, rest)) = choice_front(bytes) else {
        return None;
    };
    Some((
        Verdict::Down {
            server,
            version,
            pool,
        },
        rest,
    ))
}

// A server, a version, a pool.
#[tactic(auto, unfolding(crate::specs::Fronts::choice_front))]
fn choice_front(bytes: &[u8]) -> Option<(u32, Version, u64, &[u8])>
    ensures { option_map (λ x. (x.0, x.1, x.2, x.3.now)) result ≡ choice_front bytes.now }
{
    let (server, rest) = u32_front(b' ', bytes)?;
    let Some((version, rest)) = version_front(b' ', rest) else {
        return None;
    };
    let (pool, rest) = u64_front(b'\n', rest)?;
    Some((server, version, pool, rest))
}

// A verdict without numbers.
#[tactic(auto, unfolding(crate::specs::Fronts::plain_front))]
fn plain_front(bytes: &[u8]) -> Option<(Verdict, &[u8])>
    ensures { option_map (λ x. (x.0, x.1.now)) result ≡ plain_front bytes.now }
{
    if let Some(rest) = after_word(b"held clash\n", bytes) {
        return Some((Verdict::Held(HeldBy::Clash), rest));
    }
    if let Some(rest) = after_word(b"held hold\n", bytes) {
        return Some((Verdict::Held(HeldBy::Hold), rest));
    }
    if let Some(rest) = after_word(b"held transit\n", bytes) {
        return Some((Verdict::Held(HeldBy::Transit), rest));
    }
    if let Some(rest) = after_word(b"full\n", bytes) {
        return Some((Verdict::Full, rest));
    }
    let rest = after_word(b"noplace\n", bytes)?;
    Some((Verdict::NoPlace, rest))
}
