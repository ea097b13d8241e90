//! A packet's course: what comes after each of its steps.

ghost use Rattle.std.specs.Prelude.{◌≡◌, ◌+◌, ◌<◌, ◌≤◌, drop};
ghost use Rattle.sr_base.specs.WordName.{HasPlace};
ghost use Rattle.sr_machine.specs.Reads.{has_bit, read_flag};
ghost use Rattle.sr_machine.specs.Stages.{filtered, filtering, held_or, is_opener, is_recorded, is_recording, is_to, key_bits, key_places, last_at, last_by, looked, looking, marking, missed, verdict_at, verdict_by};
ghost use Rattle.sr_machine.specs.declared.leg.Leg.TheVariants.{Judged};
ghost use Rattle.sr_core.specs.Ranges.{SaidFits};
ghost use Rattle.sr_core.specs.Tracks.{FitsCourse, FitsFlight, HaveBits, HavePlaces, leg_of, place_at};

use crate::{Course, Track};
use sr_base::{Key, Kind, Layout, Phase, Place, Version, layout_ranges};
use sr_hash::{bloom_places, bucket, group};
use sr_law::{HeldBy, Verdict};
use sr_machine::{Flight, Said};

/// Whether a packet opens a connection.
pub fn is_opener(kind: Kind) -> bool
    ensures { result ≡ is_opener kind }
{
    match kind {
        Kind::Opener => true,
        Kind::Carry => false,
        Kind::Ending => false,
    }
}

// The places of a key, in the order in which they are loaded.
pub(crate) fn key_places(layout: &Layout, key: Key) -> [Place; 12]
    ensures value { result ≡ key_places layout.now key }
    ensures fit { HavePlaces layout.now.shape result }
{
    layout_ranges(layout);
    let shape = layout.shape();
    let first = 4 * group(key, shape.full_rows);
    let one = bucket(1, key, shape.buckets);
    let two = bucket(2, key, shape.buckets);
    [
        Place::Row { row: first },
        Place::Row { row: first + 1 },
        Place::Row { row: first + 2 },
        Place::Row { row: first + 3 },
        Place::Slot {
            way: 1,
            bucket: one,
            cell: 0,
        },
        Place::Slot {
            way: 1,
            bucket: one,
            cell: 1,
        },
        Place::Slot {
            way: 1,
            bucket: one,
            cell: 2,
        },
        Place::Slot {
            way: 1,
            bucket: one,
            cell: 3,
        },
        Place::Slot {
            way: 2,
            bucket: two,
            cell: 0,
        },
        Place::Slot {
            way: 2,
            bucket: two,
            cell: 1,
        },
        Place::Slot {
            way: 2,
            bucket: two,
            cell: 2,
        },
        Place::Slot {
            way: 2,
            bucket: two,
            cell: 3,
        },
    ]
}

/// Its places of the transit filter.
pub fn key_bits(layout: &Layout, key: Key) -> [u32; 3]
    ensures value { result ≡ key_bits layout.now key }
    ensures fit { HaveBits layout.now.shape result }
{
    layout_ranges(layout);
    bloom_places(key, layout.shape().filter_bits)
}

// Where a version is found an opener is held, and another packet has it.
pub(crate) fn held_or(layout: &Layout, flight: &Flight, by: HeldBy, version: Version) -> Course
    requires { version < layout.now.shape.versions }
    ensures value { leg_of result ≡ held_or flight.now by version }
    ensures fits { FitsCourse layout.now result }
{
    if is_opener(flight.packet.kind) {
        Course::Ring {
            verdict: Verdict::Held(by),
        }
    } else {
        Course::Head { version }
    }
}

// The transit filter is looked at from this position on.
pub(crate) fn filtering(layout: &Layout, flight: &Flight, bits: [u32; 3], from: usize) -> Course
    requires from { from ≤ 3 }
    requires bits { HaveBits layout.now.shape bits }
    requires flight { FitsFlight layout.now flight.now }
    ensures value { leg_of result ≡ filtering flight.now (drop from bits) }
    ensures fits { FitsCourse layout.now result }
{
    if from < 3 {
        Course::Filter { bits, at: from }
    } else {
        held_or(layout, flight, HeldBy::Transit, flight.vip.cur)
    }
}

// No entry was found: the phase decides.
pub(crate) fn missed(layout: &Layout, flight: &Flight) -> Course
    requires { FitsFlight layout.now flight.now }
    ensures value { leg_of result ≡ missed layout.now flight.now }
    ensures fits { FitsCourse layout.now result }
{
    match flight.vip.phase {
        Phase::Steady => Course::Head {
            version: flight.vip.cur,
        },
        Phase::Recording => Course::Head {
            version: flight.vip.cur,
        },
        Phase::Holding => held_or(layout, flight, HeldBy::Hold, flight.vip.cur),
        Phase::Transit => filtering(layout, flight, key_bits(layout, flight.packet.key), 0),
    }
}

// Entries are looked at from this position on.
pub(crate) fn looking(layout: &Layout, flight: &Flight, places: [Place; 12], from: usize) -> Course
    requires from { from ≤ 12 }
    requires places { HavePlaces layout.now.shape places }
    requires flight { FitsFlight layout.now flight.now }
    ensures value { leg_of result ≡ looking layout.now flight.now (drop from places) }
    ensures fits { FitsCourse layout.now result }
{
    if from < 12 {
        Course::Look { places, at: from }
    } else {
        missed(layout, flight)
    }
}

#[tactic(auto, using(crate::proofs::Places::has_place))]
// What a place said: a live entry is found; a reserved one holds an opener, and is nothing to another packet.
pub(crate) fn looked(
    layout: &Layout,
    flight: &Flight,
    places: [Place; 12],
    at: usize,
    said: &Said,
) -> Course
    requires at { at < 12 }
    requires places { HavePlaces layout.now.shape places }
    requires flight { FitsFlight layout.now flight.now }
    requires said { SaidFits layout.now said.now }
    ensures value { leg_of result ≡ looked layout.now flight.now (place_at places at) (drop (at + 1) places) said.now }
    ensures fits { FitsCourse layout.now result }
{
    match said {
        Said::Nothing => looking(layout, flight, places, at + 1),
        Said::Reserved => {
            if is_opener(flight.packet.kind) {
                Course::Ring {
                    verdict: Verdict::Held(HeldBy::Clash),
                }
            } else {
                looking(layout, flight, places, at + 1)
            }
        }
        Said::Live(version) => Course::Hit {
            place: places[at],
            version: *version,
        },
    }
}

// A clear bit gives the next version.
pub(crate) fn filtered(
    layout: &Layout,
    flight: &Flight,
    bits: [u32; 3],
    at: usize,
    set: bool,
) -> Course
    requires at { at < 3 }
    requires bits { HaveBits layout.now.shape bits }
    requires flight { FitsFlight layout.now flight.now }
    ensures value { leg_of result ≡ filtered flight.now (drop (at + 1) bits) set }
    ensures fits { FitsCourse layout.now result }
{
    if set {
        filtering(layout, flight, bits, at + 1)
    } else {
        Course::Head {
            version: flight.vip.next,
        }
    }
}

/// The verdict by a server that is down or isn't.
pub fn verdict_by(down: bool, server: u32, version: Version, pool: u64) -> Verdict
    ensures { result ≡ verdict_by down server version pool }
{
    if down {
        Verdict::Down {
            server,
            version,
            pool,
        }
    } else {
        Verdict::To {
            server,
            version,
            pool,
        }
    }
}

// The verdict is known: an opener whose server isn't down, and an ending packet, have something to report.
pub(crate) fn judged(layout: &Layout, kind: Kind, down: bool, verdict: Verdict) -> Course
    ensures value { leg_of result ≡ Judged verdict (last_by kind down) }
    ensures fits { FitsCourse layout.now result }
{
    match kind {
        Kind::Opener => {
            if down {
                Course::Out { verdict }
            } else {
                Course::Ring { verdict }
            }
        }
        Kind::Carry => Course::Out { verdict },
        Kind::Ending => Course::Ring { verdict },
    }
}

// Whether a verdict sends the packet to a server.
pub(crate) fn is_to(verdict: &Verdict) -> bool
    ensures { result ≡ is_to verdict.now }
{
    match verdict {
        Verdict::To { .. } => true,
        _ => false,
    }
}

// Whether the virtual address said that openers are recorded.
pub(crate) fn is_recording(phase: Phase) -> bool
    ensures { result ≡ is_recording phase }
{
    match phase {
        Phase::Recording => true,
        _ => false,
    }
}

/// Whether an opener is recorded in the transit filter.
pub fn is_recorded(flight: &Flight, verdict: &Verdict) -> bool
    ensures { result ≡ is_recorded flight.now verdict.now }
{
    is_opener(flight.packet.kind) && is_to(verdict) && is_recording(flight.vip.phase)
}

// Places of the filter are set from this position on.
pub(crate) fn marking(layout: &Layout, verdict: Verdict, bits: [u32; 3], from: usize) -> Course
    requires from { from ≤ 3 }
    requires bits { HaveBits layout.now.shape bits }
    ensures value { leg_of result ≡ Judged verdict (marking (drop from bits)) }
    ensures fits { FitsCourse layout.now result }
{
    if from < 3 {
        Course::Mark {
            verdict,
            bits,
            at: from,
        }
    } else {
        Course::Push { verdict }
    }
}

// The cell of the ring was found empty or full.
pub(crate) fn celled(layout: &Layout, flight: &Flight, verdict: Verdict, empty: bool) -> Course
    ensures value { leg_of result ≡ Judged (verdict_at flight.now verdict empty) (last_at layout.now flight.now verdict empty) }
    ensures fits { FitsCourse layout.now result }
{
    if empty {
        if is_recorded(flight, &verdict) {
            marking(layout, verdict, key_bits(layout, flight.packet.key), 0)
        } else {
            Course::Push { verdict }
        }
    } else if is_opener(flight.packet.kind) {
        Course::Out {
            verdict: Verdict::Full,
        }
    } else {
        Course::Out { verdict }
    }
}
