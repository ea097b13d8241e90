ghost use Rattle.std.specs.Prelude.{◌≡◌, ◌≤◌, reverse, length};
ghost use Rattle.sr_law.specs.Cause.{answer_cause, held_cause, is_opener, meets_cause};
ghost use Rattle.sr_law.specs.Held.{may_transit};
ghost use Rattle.sr_law.specs.Shaped.{IsShaped};
ghost use Rattle.sr_audit.specs.Audit.{Tells};
ghost use Rattle.sr_audit.specs.Clashes.{KeepsPlaces};
ghost use Rattle.sr_audit.specs.Lately.{Falls};

use crate::audit::Audit;
use crate::clashes::may_clash;
use crate::in_use::some_all_in_use;
use sr_base::{Key, Kind};
use sr_law::{HeldBy, Line, Setup, Verdict};

// It opens a connection.
fn is_opener(kind: Kind) -> bool
    ensures { result ≡ is_opener kind }
{
    match kind {
        Kind::Opener => true,
        _ => false,
    }
}

// An update wasn't finished before the start of the opener, and the filter may hold it.
#[tactic(auto, unfolding(sr_law::specs::Held::may_transit))]
fn may_transit(audit: &Audit, setup: &Setup, before: &[Line], key: Key, start: u64) -> bool
    requires shape { IsShaped setup.now.shape }
    requires falls { Falls (reverse before.now) }
    requires tells { Tells setup.now audit.now (reverse before.now) }
    ensures { result ≡ may_transit setup.now.shape (reverse before.now) key start }
{
    audit.holds.is_unfinished(key.vip, start) && audit.filters.may_hold(&setup.shape, key)
}

// Why an opener was held.
fn held_cause(
    audit: &Audit,
    setup: &Setup,
    before: &[Line],
    key: Key,
    start: u64,
    why: HeldBy,
) -> bool
    requires shape { IsShaped setup.now.shape }
    requires falls { Falls (reverse before.now) }
    requires kept { KeepsPlaces setup.now.shape (reverse before.now) }
    requires tells { Tells setup.now audit.now (reverse before.now) }
    ensures { result ≡ held_cause setup.now.shape (reverse before.now) key start why }
{
    match why {
        HeldBy::Clash => may_clash(&audit.places, &setup.shape, before, key, start),
        HeldBy::Hold => audit.holds.may_hold(key.vip, start),
        HeldBy::Transit => may_transit(audit, setup, before, key, start),
    }
}

// Why the answer to a held opener has its verdict.
fn answer_cause(audit: &Audit, setup: &Setup, before: &[Line], key: Key, verdict: Verdict) -> bool
    requires shape { IsShaped setup.now.shape }
    requires tells { Tells setup.now audit.now (reverse before.now) }
    ensures { result ≡ answer_cause setup.now.shape (reverse before.now) key verdict }
{
    match verdict {
        Verdict::To { server, .. } => !audit.downs.has(server),
        Verdict::Down { server, .. } => audit.downs.has(server),
        Verdict::NoPlace => audit.rows.are_full(&setup.shape, key),
        _ => false,
    }
}

// A line has its cause.
#[tactic(auto, unfolding(sr_law::specs::Cause::meets_cause))]
pub(crate) fn has_cause(audit: &Audit, setup: &Setup, before: &[Line], line: &Line) -> bool
    requires shape { IsShaped setup.now.shape }
    requires vips { length setup.now.pools ≤ 16 }
    requires falls { Falls (reverse before.now) }
    requires kept { KeepsPlaces setup.now.shape (reverse before.now) }
    requires tells { Tells setup.now audit.now (reverse before.now) }
    ensures { result ≡ meets_cause setup.now (reverse before.now) line.now }
{
    match *line {
        Line::Packet {
            entered,
            pipe,
            key,
            kind,
            verdict,
            ..
        } => match verdict {
            Verdict::To { server, .. } => !audit.downs.knows(server, entered),
            Verdict::Held(why) => {
                is_opener(kind) && held_cause(audit, setup, before, key, entered, why)
            }
            Verdict::Down { server, .. } => audit.downs.has(server),
            Verdict::Full => {
                is_opener(kind) && audit.rings.may_be_full(&setup.shape, pipe, entered)
            }
            Verdict::NoPlace => false,
        },
        Line::Answer { key, verdict, .. } => answer_cause(audit, setup, before, key, verdict),
        Line::Refused { .. } => some_all_in_use(
            audit,
            setup,
            before,
            setup.shape.versions,
            setup.pools.vips() as u8,
        ),
        _ => true,
    }
}
