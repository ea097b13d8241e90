ghost use Rattle.std.specs.Prelude.{◌≡◌, ◌≤◌, reverse, length};
ghost use Rattle.sr_law.specs.Cause.{is_opener, held_cause, packet_cause, answer_cause, all_in_use, some_all_in_use, meets_cause};
ghost use Rattle.sr_law.specs.Shaped.{IsShaped};

use crate::clashing::may_clash;
use crate::downs::{is_down, is_known_down};
use crate::filter::may_transit;
use crate::full::may_be_full;
use crate::holding::may_hold;
use crate::number::is_in_use;
use crate::rows::is_group_full;
use crate::{HeldBy, Line, Setup, Verdict};
use sr_base::{Key, Kind, Shape};

// It opens a connection.
fn is_opener(kind: Kind) -> bool
    ensures { result ≡ is_opener kind }
{
    match kind {
        Kind::Opener => true,
        _ => false,
    }
}

// Why the opener of a key that started at this tick was held.
fn held_cause(shape: &Shape, before: &[Line], key: Key, start: u64, why: HeldBy) -> bool
    requires { IsShaped shape.now }
    ensures { result ≡ held_cause shape.now (reverse before.now) key start why }
{
    match why {
        HeldBy::Clash => may_clash(shape, before, key, start),
        HeldBy::Hold => may_hold(before, key.vip, start),
        HeldBy::Transit => may_transit(shape, before, key, start),
    }
}

// Why a packet has its verdict.
fn packet_cause(
    shape: &Shape,
    before: &[Line],
    start: u64,
    pipe: u8,
    key: Key,
    kind: Kind,
    verdict: Verdict,
) -> bool
    requires { IsShaped shape.now }
    ensures { result ≡ packet_cause shape.now (reverse before.now) start pipe key kind verdict }
{
    match verdict {
        Verdict::To { server, .. } => !is_known_down(before, server, start),
        Verdict::Held(why) => is_opener(kind) && held_cause(shape, before, key, start, why),
        Verdict::Down { server, .. } => is_down(before, server),
        Verdict::Full => is_opener(kind) && may_be_full(shape, before, pipe, start),
        Verdict::NoPlace => false,
    }
}

// Why the answer to a held opener has its verdict.
fn answer_cause(shape: &Shape, before: &[Line], key: Key, verdict: Verdict) -> bool
    requires { IsShaped shape.now }
    ensures { result ≡ answer_cause shape.now (reverse before.now) key verdict }
{
    match verdict {
        Verdict::To { server, .. } => !is_down(before, server),
        Verdict::Down { server, .. } => is_down(before, server),
        Verdict::NoPlace => is_group_full(shape, before, key),
        _ => false,
    }
}

// Each version below this number is in use for this virtual address.
fn all_in_use(before: &[Line], vip: u8, versions: u8) -> bool
    ensures { result ≡ all_in_use (reverse before.now) vip versions }
{
    let mut all = true;
    for version in 0..versions {
        if !is_in_use(before, vip, version) {
            all = false;
        }
    }
    all
}

// Of some virtual address below this number all versions are in use.
fn some_all_in_use(before: &[Line], versions: u8, vips: u8) -> bool
    ensures { result ≡ some_all_in_use (reverse before.now) versions vips }
{
    let mut some = false;
    for vip in 0..vips {
        if all_in_use(before, vip, versions) {
            some = true;
        }
    }
    some
}

/// A line has its cause.
#[tactic(auto, unfolding(crate::specs::Cause::meets_cause))]
pub fn meets_cause(setup: &Setup, before: &[Line], line: &Line) -> bool
    requires shape { IsShaped setup.now.shape }
    requires vips { length setup.now.pools ≤ 16 }
    ensures { result ≡ meets_cause setup.now (reverse before.now) line.now }
{
    match *line {
        Line::Packet {
            entered,
            pipe,
            key,
            kind,
            verdict,
            ..
        } => packet_cause(&setup.shape, before, entered, pipe, key, kind, verdict),
        Line::Answer { key, verdict, .. } => answer_cause(&setup.shape, before, key, verdict),
        Line::Refused { .. } => some_all_in_use(
            before,
            setup.shape.versions,
            setup.pools.vips() as u8,
        ),
        _ => true,
    }
}
