//! Lines at the front of bytes, each with its line feed.
ghost use Rattle.std.specs.Prelude.{◌≡◌, ◌++◌, List, option_map, IfSome, IfNone};
ghost use Rattle.sr_text.specs.Fronts.{answer_front, entry_front, give_front, line_front, named_front, numbered_front, packet_front, retire_front, skip_front, sweep_front, switch_front, why_front};
ghost use Rattle.sr_text.specs.declared.name.Name.TheVariants as name;

use crate::field_fronts::{key_front, kind_front, place_front, verdict_front};
use crate::name::{Name, name_front};
use crate::numbers::{u8_front, u32_front, u64_front, version_front};
use crate::word::after_word;
use sr_base::{Key, Place};
use sr_frame::Skip;
use sr_law::Line;

/// The line at the front, and what follows it.
#[tactic(auto, unfolding(crate::specs::Fronts::line_front))]
pub(crate) fn line_front(bytes: &[u8]) -> Option<(Line, &[u8])>
    ensures { option_map (λ x. (x.0, x.1.now)) result ≡ line_front bytes.now }
{
    let (name, rest) = name_front(bytes)?;
    named_front(name, rest)
}

// What comes after a line's name.
fn named_front(name: Name, bytes: &[u8]) -> Option<(Line, &[u8])>
    ensures { option_map (λ x. (x.0, x.1.now)) result ≡ named_front name bytes.now }
{
    match name {
        Name::Packet => packet_front(bytes),
        Name::Answer => answer_front(bytes),
        Name::Give => give_front(bytes),
        Name::Record => {
            let (out, vip, rest) = phase_front(bytes)?;
            Some((Line::Recorded { out, vip }, rest))
        }
        Name::Hold => {
            let (out, vip, rest) = phase_front(bytes)?;
            Some((Line::Hold { out, vip }, rest))
        }
        Name::Switch => switch_front(bytes),
        Name::Finish => {
            let (out, vip, rest) = phase_front(bytes)?;
            Some((Line::Finished { out, vip }, rest))
        }
        Name::Down => {
            let (out, server, rest) = numbered_front(bytes)?;
            Some((Line::TakenDown { out, server }, rest))
        }
        Name::Reserve => reserved_front(bytes),
        Name::Place => placed_front(bytes),
        Name::Clear => cleared_front(bytes),
        Name::Sweep => sweep_front(bytes),
        Name::Retire => retire_front(bytes),
        Name::Refuse => {
            let (out, change, rest) = numbered_front(bytes)?;
            Some((Line::Refused { out, change }, rest))
        }
    }
}

// The fields of a packet's line.
#[tactic(auto, unfolding(crate::specs::Fronts::packet_front))]
fn packet_front(bytes: &[u8]) -> Option<(Line, &[u8])>
    ensures { option_map (λ x. (x.0, x.1.now)) result ≡ packet_front bytes.now }
{
    let (number, rest) = u32_front(b' ', bytes)?;
    let (entered, rest) = u64_front(b' ', rest)?;
    let (out, rest) = u64_front(b' ', rest)?;
    let (pipe, rest) = u8_front(b' ', rest)?;
    let Some((key, rest)) = key_front(b' ', rest) else {
        return None;
    };
    let (kind, rest) = kind_front(rest)?;
    let Some((verdict, rest)) = verdict_front(rest) else {
        return None;
    };
    let line = Line::Packet {
        number,
        entered,
        out,
        pipe,
        key,
        kind,
        verdict,
    };
    Some((line, rest))
}

// The fields of an answer's line.
#[tactic(auto, unfolding(crate::specs::Fronts::answer_front))]
fn answer_front(bytes: &[u8]) -> Option<(Line, &[u8])>
    ensures { option_map (λ x. (x.0, x.1.now)) result ≡ answer_front bytes.now }
{
    let (out, rest) = u64_front(b' ', bytes)?;
    let (pipe, rest) = u8_front(b' ', rest)?;
    let (nth, rest) = u32_front(b' ', rest)?;
    let Some((key, rest)) = key_front(b' ', rest) else {
        return None;
    };
    let Some((verdict, rest)) = verdict_front(rest) else {
        return None;
    };
    let line = Line::Answer {
        out,
        pipe,
        nth,
        key,
        verdict,
    };
    Some((line, rest))
}

// The fields of the line of a version that names a pool.
#[tactic(auto, unfolding(crate::specs::Fronts::give_front))]
fn give_front(bytes: &[u8]) -> Option<(Line, &[u8])>
    ensures { option_map (λ x. (x.0, x.1.now)) result ≡ give_front bytes.now }
{
    let (out, rest) = u64_front(b' ', bytes)?;
    let (vip, rest) = u8_front(b' ', rest)?;
    let Some((version, rest)) = version_front(b' ', rest) else {
        return None;
    };
    let (pool, rest) = u64_front(b'\n', rest)?;
    let line = Line::Given {
        out,
        vip,
        version,
        pool,
    };
    Some((line, rest))
}

// The fields of a switch's line.
#[tactic(auto, unfolding(crate::specs::Fronts::switch_front))]
fn switch_front(bytes: &[u8]) -> Option<(Line, &[u8])>
    ensures { option_map (λ x. (x.0, x.1.now)) result ≡ switch_front bytes.now }
{
    let (out, rest) = u64_front(b' ', bytes)?;
    let (vip, rest) = u8_front(b' ', rest)?;
    let (pool, rest) = u64_front(b'\n', rest)?;
    Some((Line::Switched { out, vip, pool }, rest))
}

// The fields of a sweep's line.
#[tactic(auto, unfolding(crate::specs::Fronts::sweep_front))]
fn sweep_front(bytes: &[u8]) -> Option<(Line, &[u8])>
    ensures { option_map (λ x. (x.0, x.1.now)) result ≡ sweep_front bytes.now }
{
    let (number, rest) = u64_front(b' ', bytes)?;
    let (from, rest) = u64_front(b' ', rest)?;
    let (to, rest) = u64_front(b' ', rest)?;
    let (at_ms, rest) = u64_front(b'\n', rest)?;
    let line = Line::Swept {
        number,
        from,
        to,
        at_ms,
    };
    Some((line, rest))
}

// The fields of the line of a connection that is over.
#[tactic(auto, unfolding(crate::specs::Fronts::retire_front))]
fn retire_front(bytes: &[u8]) -> Option<(Line, &[u8])>
    ensures { option_map (λ x. (x.0, x.1.now)) result ≡ retire_front bytes.now }
{
    let (out, rest) = u64_front(b' ', bytes)?;
    let Some((key, rest)) = key_front(b'\n', rest) else {
        return None;
    };
    Some((Line::Retired { out, key }, rest))
}

// A tick and a virtual address.
#[tactic(auto, unfolding(crate::specs::Fronts::numbered_front))]
fn phase_front(bytes: &[u8]) -> Option<(u64, u8, &[u8])>
    ensures { option_map (λ x. (x.0, x.1, x.2.now)) result ≡ numbered_front 255 bytes.now }
{
    let (out, rest) = u64_front(b' ', bytes)?;
    let (vip, rest) = u8_front(b'\n', rest)?;
    Some((out, vip, rest))
}

// A tick and a number.
#[tactic(auto, unfolding(crate::specs::Fronts::numbered_front))]
fn numbered_front(bytes: &[u8]) -> Option<(u64, u32, &[u8])>
    ensures { option_map (λ x. (x.0, x.1, x.2.now)) result ≡ numbered_front 4294967295 bytes.now }
{
    let (out, rest) = u64_front(b' ', bytes)?;
    let (number, rest) = u32_front(b'\n', rest)?;
    Some((out, number, rest))
}

// A tick, a key and a place.
#[tactic(auto, unfolding(crate::specs::Fronts::entry_front))]
fn entry_front(bytes: &[u8]) -> Option<(u64, Key, Place, &[u8])>
    ensures { option_map (λ x. (x.0, x.1, x.2, x.3.now)) result ≡ entry_front bytes.now }
{
    let (out, rest) = u64_front(b' ', bytes)?;
    let Some((key, rest)) = key_front(b' ', rest) else {
        return None;
    };
    let Some((place, rest)) = place_front(rest) else {
        return None;
    };
    Some((out, key, place, rest))
}

// The fields of the line of a place that is reserved.
fn reserved_front(bytes: &[u8]) -> Option<(Line, &[u8])>
    ensures { option_map (λ x. (x.0, x.1.now)) result ≡ named_front name.Reserve bytes.now }
{
    let Some((out, key, place, rest)) = entry_front(bytes) else {
        return None;
    };
    Some((Line::Reserved { out, key, place }, rest))
}

// The fields of the line of a place that is taken.
fn placed_front(bytes: &[u8]) -> Option<(Line, &[u8])>
    ensures { option_map (λ x. (x.0, x.1.now)) result ≡ named_front name.Place bytes.now }
{
    let Some((out, key, place, rest)) = entry_front(bytes) else {
        return None;
    };
    Some((Line::Placed { out, key, place }, rest))
}

// The fields of the line of a place that is cleared.
fn cleared_front(bytes: &[u8]) -> Option<(Line, &[u8])>
    ensures { option_map (λ x. (x.0, x.1.now)) result ≡ named_front name.Clear bytes.now }
{
    let Some((out, key, place, rest)) = entry_front(bytes) else {
        return None;
    };
    Some((Line::Cleared { out, key, place }, rest))
}

// Why a record was skipped.
#[tactic(auto, unfolding(crate::specs::Fronts::why_front))]
fn why_front(bytes: &[u8]) -> Option<(Skip, &[u8])>
    ensures { option_map (λ x. (x.0, x.1.now)) result ≡ why_front bytes.now }
{
    if let Some(rest) = after_word(b"notipv4\n", bytes) {
        return Some((Skip::NotIpv4, rest));
    }
    if let Some(rest) = after_word(b"nottcp\n", bytes) {
        return Some((Skip::NotTcp, rest));
    }
    if let Some(rest) = after_word(b"fragment\n", bytes) {
        return Some((Skip::Fragment, rest));
    }
    if let Some(rest) = after_word(b"short\n", bytes) {
        return Some((Skip::Short, rest));
    }
    let rest = after_word(b"notvip\n", bytes)?;
    Some((Skip::NotVip, rest))
}

/// The line of a skipped record at the front, and what follows it.
#[tactic(auto, unfolding(crate::specs::Fronts::skip_front))]
pub(crate) fn skip_front(bytes: &[u8]) -> Option<((u32, Skip), &[u8])>
    ensures { option_map (λ x. (x.0, x.1.now)) result ≡ skip_front bytes.now }
{
    let rest = after_word(b"skip ", bytes)?;
    let (number, rest) = u32_front(b' ', rest)?;
    let (why, rest) = why_front(rest)?;
    Some(((number, why), rest))
}
