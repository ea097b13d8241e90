//! Lawful lists with one line changed, doubled, moved or left out, as a generator picks: the auditor in one walk answers what the plain one does.

use crate::play::{Play, RING_OF_ONE, played};
use crate::scene::{script, setup};
use sr_audit::check;
use sr_base::{Key, Kind, Layout, Place, Version};
use sr_gen::Generator;
use sr_law::{CheckRefusal, Clause, HeldBy, Line, Setup, Verdict, check_plain};
use sr_scripted::in_order;
use std::alloc::Global;
use std::test::Fail;

// Another tick, near.
fn near(tick: u64, n: u32) -> u64 {
    if n % 2 == 0 {
        tick.saturating_add(1 + n as u64 % 3)
    } else {
        tick.saturating_sub(1 + n as u64 % 3)
    }
}

// The key of the other client, or to the other virtual address.
fn other_key(key: Key, n: u32) -> Key {
    if n % 2 == 0 {
        Key {
            vip: key.vip,
            ip: 0x0a00_0009 + n / 2 % 2,
            port: key.port,
        }
    } else {
        Key {
            vip: (n / 2 % 2) as u8,
            ip: key.ip,
            port: key.port,
        }
    }
}

// Version 0 or 1.
fn other_version(n: u32) -> Version {
    match Version::new((n % 2) as u8) {
        Some(version) => version,
        None => Version::zero(),
    }
}

// A row or a slot.
fn other_place(n: u32) -> Place {
    if n % 2 == 0 {
        Place::Row { row: n / 2 % 4 }
    } else {
        Place::Slot {
            way: 1 + (n / 2 % 2) as u8,
            bucket: 0,
            cell: (n / 4 % 4) as u8,
        }
    }
}

fn other_kind(n: u32) -> Kind {
    match n % 3 {
        0 => Kind::Opener,
        1 => Kind::Carry,
        _ => Kind::Ending,
    }
}

fn other_verdict(n: u32) -> Verdict {
    match n % 7 {
        0 => Verdict::Full,
        1 => Verdict::NoPlace,
        2 => Verdict::Held(HeldBy::Clash),
        3 => Verdict::Held(HeldBy::Hold),
        4 => Verdict::Held(HeldBy::Transit),
        5 => Verdict::Down {
            server: n / 7 % 2,
            version: other_version(n / 14),
            pool: 1 + n as u64 / 28 % 3,
        },
        _ => Verdict::To {
            server: n / 7 % 2,
            version: other_version(n / 14),
            pool: 1 + n as u64 / 28 % 3,
        },
    }
}

// A packet's line with one field changed.
fn other_packet(line: &Line, n: u32) -> Line {
    let mut other = *line;
    if let Line::Packet {
        number,
        entered,
        out,
        pipe,
        key,
        kind,
        verdict,
    } = &mut other
    {
        match n % 7 {
            0 => *number = 1 + n / 7 % 24,
            1 => *entered = near(*entered, n / 7),
            2 => *out = near(*out, n / 7),
            3 => *pipe = (n / 7 % 2) as u8,
            4 => *key = other_key(*key, n / 7),
            5 => *kind = other_kind(n / 7),
            _ => *verdict = other_verdict(n / 7),
        }
    }
    other
}

// A line of the controller with one field changed.
fn other_act(line: &Line, n: u32) -> Line {
    let m = n / 3;
    match *line {
        Line::Answer {
            out,
            pipe,
            nth,
            key,
            verdict,
        } => Line::Answer {
            out,
            pipe,
            nth: if n % 3 == 0 { 1 + m % 3 } else { nth },
            key: if n % 3 == 1 { other_key(key, m) } else { key },
            verdict: if n % 3 == 2 {
                other_verdict(m)
            } else {
                verdict
            },
        },
        Line::Given { out, vip, pool, .. } => Line::Given {
            out,
            vip,
            version: other_version(n),
            pool: if n % 3 == 0 { 1 + m as u64 % 3 } else { pool },
        },
        Line::Reserved { out, key, place } => Line::Reserved {
            out,
            key: if n % 3 == 0 { other_key(key, m) } else { key },
            place: if n % 3 == 0 { place } else { other_place(m) },
        },
        Line::Placed { out, key, place } => Line::Placed {
            out,
            key: if n % 3 == 0 { other_key(key, m) } else { key },
            place: if n % 3 == 0 { place } else { other_place(m) },
        },
        Line::Cleared { out, key, place } => Line::Cleared {
            out,
            key: if n % 3 == 0 { other_key(key, m) } else { key },
            place: if n % 3 == 0 { place } else { other_place(m) },
        },
        Line::Retired { out, key } => Line::Retired {
            out: if n % 3 == 0 { near(out, m) } else { out },
            key: if n % 3 == 0 { key } else { other_key(key, m) },
        },
        Line::Switched { out, vip, pool } => Line::Switched {
            out: if n % 3 == 0 { near(out, m) } else { out },
            vip,
            pool: if n % 3 == 0 { pool } else { 1 + m as u64 % 3 },
        },
        other => other,
    }
}

fn changed(line: &Line, n: u32) -> Line {
    match line {
        Line::Packet { .. } => other_packet(line, n),
        _ => other_act(line, n),
    }
}

// The list with the line at this position changed, doubled, put behind the next one, or left out, by what was drawn.
fn list_after(alloc: Global, lines: &[Line], at: usize, n: u32) -> Result<Vec<Line>, Fail> {
    let mut list = Vec::new(alloc);
    let mut moved = None;
    for (position, line) in lines.iter().enumerate() {
        if position != at {
            list.push(*line)?;
            if let Some(behind) = moved.take() {
                list.push(behind)?;
            }
            continue;
        }
        match n % 8 {
            0 => {}
            1 => {
                list.push(*line)?;
                list.push(*line)?;
            }
            2 => moved = Some(*line),
            _ => list.push(changed(line, n / 8))?,
        }
    }
    Ok(list)
}

// What an auditor answers; want of memory is Text at 0.
fn breach(answer: Result<(), CheckRefusal>) -> Option<(usize, Clause)> {
    match answer {
        Ok(()) => None,
        Err(CheckRefusal::Breach { line, clause }) => Some((line, clause)),
        Err(CheckRefusal::Memory) => Some((0, Clause::Text)),
    }
}

// Whether both auditors answer the same; and whether they take the list.
fn alike(alloc: Global, setup: &Setup, lines: &[Line]) -> (bool, bool) {
    let vips = setup.pools.vips();
    if 16 < vips || Layout::new(setup.shape, vips as u8, setup.servers).is_err() {
        return (false, false);
    }
    let plain = breach(check_plain(setup, lines));
    (breach(check(alloc, setup, lines)) == plain, plain.is_none())
}

// A run's lines, in order, and what they are judged for.
fn judgement(alloc: Global, play: &Play) -> Result<(Vec<Line>, Setup), Fail> {
    let lines = in_order(play.core.all_lines(alloc)?)?;
    let script = script(alloc, RING_OF_ONE)?;
    Ok((lines, setup(alloc, &script, play.packets.as_slice())?))
}

// The lines of a seed's run, and what they are judged for.
fn run_of(alloc: Global, seed: u64) -> Result<(Vec<Line>, Setup), Fail> {
    let play = played(alloc, seed, 600)?;
    judgement(alloc, &play)
}

// How many changes of this list are judged differently, and how many are still lawful.
fn differences_of(
    alloc: Global,
    setup: &Setup,
    lines: &[Line],
    seed: u64,
    changes: u32,
) -> Result<(u32, u32), Fail> {
    let mut generator = Generator::new(seed);
    let mut different = 0u32;
    let mut lawful = 0u32;
    for _change in 0..changes {
        let at = generator.draw() as usize % lines.len().max(1);
        let list = list_after(alloc, lines, at, generator.draw())?;
        let (same, taken) = alike(alloc, setup, list.as_slice());
        if !same {
            different = different.saturating_add(1);
        }
        if taken {
            lawful = lawful.saturating_add(1);
        }
    }
    Ok((different, lawful))
}

// The same, of the list of a seed's run.
fn differences(alloc: Global, seed: u64, changes: u32) -> Result<(u32, u32), Fail> {
    let (lines, setup) = run_of(alloc, seed)?;
    differences_of(alloc, &setup, lines.as_slice(), seed, changes)
}

// Most changes break a rule, and some don't.
#[test]
fn changed_lists_are_judged_alike(rt: HostRuntime) -> Result<(), Fail> {
    for seed in 1..9 {
        let (different, lawful) = differences(rt.alloc(), seed, 50)?;
        assert!(rt; different == 0, "seed {seed}");
        assert!(rt; lawful < 25, "seed {seed}: {lawful} are lawful");
    }
    Ok(())
}
