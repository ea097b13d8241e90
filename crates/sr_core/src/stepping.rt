//! A pipe's next step, and what comes after it.

ghost use Rattle.std.specs.Prelude.{◌≡◌, ◌+◌, ◌<◌, IfSome, drop, slice_index};
ghost use Rattle.sr_base.specs.WordName.{HasWord};
ghost use Rattle.sr_machine.specs.Names.{word_name};
ghost use Rattle.sr_machine.specs.Ops.{op_name};
ghost use Rattle.sr_machine.specs.Reads.{filter_bit, filter_word, has_bit, says};
ghost use Rattle.sr_machine.specs.Stages.{filtered, leg_after, leg_op, looked, report_by, report_of, ring_cell, stage_after, stage_op};
ghost use Rattle.sr_machine.specs.declared.stage.Stage.TheVariants.{Fly};
ghost use Rattle.sr_core.specs.Tracks.{FitsCourse, FitsFlight, FitsTrack, HaveBits, HavePlaces, leg_of, place_at, stage_of};

use crate::course::{
    celled, filtered, held_or, is_to, judged, key_places, looked, looking, marking, verdict_by,
};
use crate::reads::{has_bit, read_flag, read_head, read_server, read_vip, says};
use crate::{Course, Track};
use sr_base::{
    Key, Kind, Layout, Place, RingKind, RingWord, Version, filter_bits_have_words, layout_ranges,
};
use sr_hash::select;
use sr_law::{HeldBy, Verdict};
use sr_machine::{Flight, Name, Op};

/// What a packet reports.
pub fn report_by(key: Key, kind: Kind, verdict: &Verdict) -> RingWord
    ensures value { result ≡ report_by key kind verdict.now }
{
    match kind {
        Kind::Opener => match verdict {
            Verdict::To { version, .. } => RingWord {
                kind: RingKind::Learn,
                version: *version,
                key,
            },
            _ => RingWord {
                kind: RingKind::Punt,
                version: Version::zero(),
                key,
            },
        },
        _ => RingWord {
            kind: RingKind::Close,
            version: Version::zero(),
            key,
        },
    }
}

/// The cell of the ring for a report of this number.
pub fn ring_cell(layout: &Layout, pipe: u8, n: u64) -> Name
    requires { pipe < layout.now.shape.pipes }
    ensures value { result ≡ ring_cell layout.now pipe n }
    ensures named { HasWord layout.now (word_name result) }
{
    layout_ranges(layout);
    Name::Ring {
        pipe,
        cell: (n % layout.shape().ring as u64) as u32,
    }
}

#[tactic(auto, using(crate::proofs::Places::has_place, crate::proofs::Places::has_bit_at))]
// The step of a packet in flight on this pipe, which has pushed so many reports.
fn course_op(layout: &Layout, pipe: u8, pushed: u64, flight: &Flight, course: &Course) -> Op
    requires pipe { pipe < layout.now.shape.pipes }
    requires flight { FitsFlight layout.now flight.now }
    requires course { FitsCourse layout.now course.now }
    ensures value { result ≡ leg_op layout.now pipe pushed flight.now (leg_of course.now) }
    ensures named { HasWord layout.now (word_name (op_name result)) }
{
    layout_ranges(layout);
    filter_bits_have_words(layout);
    let vip = flight.packet.key.vip;
    match course {
        Course::Look { places, at } => Op::Loads {
            name: Name::Entry { place: places[*at] },
        },
        Course::Hit { place, .. } => Op::Stores {
            name: Name::Hit { place: *place },
            value: 1,
        },
        Course::Filter { bits, at } => Op::Loads {
            name: Name::Filter {
                index: bits[*at] / 64,
            },
        },
        Course::Head { version } => Op::Loads {
            name: Name::Head {
                vip,
                version: version.number(),
            },
        },
        Course::Member { version, head } => Op::Loads {
            name: Name::Member {
                vip,
                version: version.number(),
                index: select(head.size, flight.packet.key),
            },
        },
        Course::Down { server, .. } => Op::Loads {
            name: Name::Down { server: *server },
        },
        Course::Ring { .. } => Op::Loads {
            name: ring_cell(layout, pipe, pushed),
        },
        Course::Mark { bits, at, .. } => Op::Ors {
            name: Name::Filter {
                index: bits[*at] / 64,
            },
            bits: 1 << (bits[*at] % 64),
        },
        Course::Push { verdict } => Op::Stores {
            name: ring_cell(layout, pipe, pushed),
            value: report_by(flight.packet.key, flight.packet.kind, verdict).pack(),
        },
        Course::Out { .. } => Op::Adds {
            name: Name::Tick,
            by: 1,
        },
    }
}

// The packet goes on by this course.
fn flying(layout: &Layout, flight: &Flight, course: Course) -> Track
    requires flight { FitsFlight layout.now flight.now }
    requires course { FitsCourse layout.now course }
    ensures value { stage_of result ≡ Fly flight.now (leg_of course) }
    ensures fits { FitsTrack layout.now result }
{
    let _ = layout;
    Track::Fly {
        flight: *flight,
        course,
    }
}

// What comes after the step of a packet in flight, which answered this.
fn course_after(layout: &Layout, flight: &Flight, course: &Course, x: u64) -> Track
    requires flight { FitsFlight layout.now flight.now }
    requires course { FitsCourse layout.now course.now }
    ensures value { stage_of result ≡ leg_after layout.now flight.now (leg_of course.now) x }
    ensures fits { FitsTrack layout.now result }
{
    match course {
        Course::Look { places, at } => flying(
            layout,
            flight,
            look_after(layout, flight, *places, *at, x),
        ),
        Course::Hit { version, .. } => flying(
            layout,
            flight,
            held_or(layout, flight, HeldBy::Clash, *version),
        ),
        Course::Filter { bits, at } => flying(
            layout,
            flight,
            filter_after(layout, flight, *bits, *at, x),
        ),
        Course::Head { version } => flying(
            layout,
            flight,
            Course::Member {
                version: *version,
                head: read_head(layout, x),
            },
        ),
        Course::Member { version, head } => flying(
            layout,
            flight,
            Course::Down {
                version: *version,
                pool: head.pool,
                server: read_server(layout, x),
            },
        ),
        Course::Down {
            version,
            pool,
            server,
        } => flying(
            layout,
            flight,
            judged(
                layout,
                flight.packet.kind,
                read_flag(x),
                verdict_by(read_flag(x), *server, *version, *pool),
            ),
        ),
        Course::Ring { verdict } => flying(
            layout,
            flight,
            celled(layout, flight, *verdict, x == 0),
        ),
        Course::Mark { verdict, bits, at } => flying(
            layout,
            flight,
            marking(layout, *verdict, *bits, *at + 1),
        ),
        Course::Push { verdict } => flying(layout, flight, Course::Out { verdict: *verdict }),
        Course::Out { .. } => Track::Leave { flight: *flight },
    }
}

// What comes after a look at this one of the places.
#[tactic(auto, using(crate::proofs::Places::has_place))]
fn look_after(layout: &Layout, flight: &Flight, places: [Place; 12], at: usize, x: u64) -> Course
    requires at { at < 12 }
    requires places { HavePlaces layout.now.shape places }
    requires flight { FitsFlight layout.now flight.now }
    ensures value { leg_of result
        ≡ looked layout.now flight.now (place_at places at) (drop (at + 1) places)
        (says layout.now (place_at places at) flight.now.packet.key x) }
    ensures fits { FitsCourse layout.now result }
{
    let said = says(layout, places[at], flight.packet.key, x);
    looked(layout, flight, places, at, &said)
}

// What comes after a look at this one of the filter's places.
fn filter_after(layout: &Layout, flight: &Flight, bits: [u32; 3], at: usize, x: u64) -> Course
    requires at { at < 3 }
    requires bits { HaveBits layout.now.shape bits }
    requires flight { FitsFlight layout.now flight.now }
    ensures value { leg_of result ≡ filtered flight.now (drop (at + 1) bits) (has_bit (slice_index bits at) x) }
    ensures fits { FitsCourse layout.now result }
{
    let set = has_bit(bits[at], x);
    filtered(layout, flight, bits, at, set)
}

// The next step of a pipe of this number, which has pushed so many reports; none of an idle one.
pub(crate) fn track_op(layout: &Layout, pipe: u8, pushed: u64, track: &Track) -> Option<Op>
    requires pipe { pipe < layout.now.shape.pipes }
    requires track { FitsTrack layout.now track.now }
    ensures value { result ≡ stage_op layout.now pipe pushed (stage_of track.now) }
    ensures named { IfSome result (λ op. HasWord layout.now (word_name (op_name op))) }
{
    match track {
        Track::Idle => None,
        Track::Enter { .. } => Some(Op::Adds {
            name: Name::Tick,
            by: 1,
        }),
        Track::Note { entered, .. } => Some(Op::Stores {
            name: Name::Note { pipe },
            value: *entered,
        }),
        Track::Vip { packet, .. } => Some(Op::Loads {
            name: Name::Vip {
                vip: packet.key.vip,
            },
        }),
        Track::Fly { flight, course } => Some(course_op(layout, pipe, pushed, flight, course)),
        Track::Leave { .. } => Some(Op::Stores {
            name: Name::Note { pipe },
            value: 0,
        }),
    }
}

// What comes after it, by what it answered.
pub(crate) fn track_after(layout: &Layout, track: &Track, x: u64) -> Track
    requires { FitsTrack layout.now track.now }
    ensures value { stage_of result ≡ stage_after layout.now (stage_of track.now) x }
    ensures fits { FitsTrack layout.now result }
{
    match track {
        Track::Idle => Track::Idle,
        Track::Enter { packet } => Track::Note {
            packet: *packet,
            entered: x,
        },
        Track::Note { packet, entered } => Track::Vip {
            packet: *packet,
            entered: *entered,
        },
        Track::Vip { packet, entered } => {
            let flight = Flight {
                packet: *packet,
                entered: *entered,
                vip: read_vip(layout, x),
            };
            let places = key_places(layout, packet.key);
            Track::Fly {
                flight,
                course: looking(layout, &flight, places, 0),
            }
        }
        Track::Fly { flight, course } => course_after(layout, flight, course, x),
        Track::Leave { .. } => Track::Idle,
    }
}
