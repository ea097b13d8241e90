//! Captures that are played by a script, in threads (`replay`) and step by step (`steps`): over the narrow scene, and over the same with a
//! change and with eight pipes. Of a replay is asked what it has whatever the threads do.
use crate::audit::{SCENE, is_lawful};
use crate::bytes::capture;
use crate::play::{
    READ_FAULT, Row, WRITE_FAULT, first_run, is_cut_short, row_of, told_over, told_with,
};
use crate::scripts::scene_with;
use sr_io::{MemShelf, MemSink};
use std::alloc::{AllocError, Global};
use std::test::Fail;
use std::thread::Threads;

// Words and captures, and then what is told of `steps`. The ticks are those of a model of one connection over this scene, made for these rows.
const ROWS: &str = "steps|scene|1
raw syn data
silkroad 1
give 1 0 0 1
packet 1 2 3 0 0/10.0.0.9:4000 open to 0 0 1
reserve 4 0/10.0.0.9:4000 w1b0c0
place 7 0/10.0.0.9:4000 w1b0c0
packet 2 6 9 0 0/10.0.0.9:4000 data to 0 0 1
exit 0
==
steps|scene|7
raw syn data
silkroad 1
give 1 0 0 1
packet 1 2 3 0 0/10.0.0.9:4000 open to 0 0 1
reserve 5 0/10.0.0.9:4000 w1b0c0
packet 2 4 7 0 0/10.0.0.9:4000 data to 0 0 1
place 8 0/10.0.0.9:4000 w1b0c0
exit 0
==
steps|scene|18446744073709551615
raw 9=17 19=2
silkroad 1
skip 1 nottcp
skip 2 notvip
give 1 0 0 1
exit 0
==
steps|scene|1
raw syn 0=79 0=68
silkroad 1
skip 2 short
skip 3 short
give 1 0 0 1
packet 1 2 3 0 0/10.0.0.9:4000 open to 0 0 1
reserve 4 0/10.0.0.9:4000 w1b0c0
place 6 0/10.0.0.9:4000 w1b0c0
exit 0
==
steps|scene|1
header 0=213
exit 3 silkroad: capture: magic
";

// Captures, and then the lines of their replay over the scene, in whatever order: each as what stands before its ticks, a `#` for these, and
// what stands after them. The last line is what is told at the end.
const REPLAYS: &str = "raw syn data
silkroad 1
give # 0 0 1
packet 1 # 0 0/10.0.0.9:4000 open to 0 0 1
packet 2 # 0 0/10.0.0.9:4000 data to 0 0 1
reserve # 0/10.0.0.9:4000 w1b0c0
place # 0/10.0.0.9:4000 w1b0c0
exit 0
==
raw syn 0=79 0=68
silkroad 1
skip 2 short
skip 3 short
give # 0 0 1
packet 1 # 0 0/10.0.0.9:4000 open to 0 0 1
reserve # 0/10.0.0.9:4000 w1b0c0
place # 0/10.0.0.9:4000 w1b0c0
exit 0
==
raw 9=17 19=2
silkroad 1
skip 1 nottcp
skip 2 notvip
give # 0 0 1
exit 0
";

// What is told of the replay of the first run without its last byte: the whole record before was played.
const REPLAY_CUT: &str = "silkroad 1
give # 0 0 1
packet 1 # 0 0/10.0.0.9:4000 open to 0 0 1
reserve # 0/10.0.0.9:4000 w1b0c0
place # 0/10.0.0.9:4000 w1b0c0
exit 3 silkroad: capture: cut at 80
";

// What is printed of the replay of the first run.
const REPLAYED: &str = "silkroad 1
give # 0 0 1
packet 1 # 0 0/10.0.0.9:4000 open to 0 0 1
packet 2 # 0 0/10.0.0.9:4000 data to 0 0 1
reserve # 0/10.0.0.9:4000 w1b0c0
place # 0/10.0.0.9:4000 w1b0c0
";

const BAD_MAGIC: &str = "exit 3 silkroad: capture: magic\n";

// What is printed of the first run by the picks of seed 1.
const PICKED: &str = "silkroad 1
give 1 0 0 1
packet 1 2 3 0 0/10.0.0.9:4000 open to 0 0 1
reserve 4 0/10.0.0.9:4000 w1b0c0
place 7 0/10.0.0.9:4000 w1b0c0
packet 2 6 9 0 0/10.0.0.9:4000 data to 0 0 1
";

const REPLAY: &str = "replay|scene";

const STEPS: &str = "steps|scene|1";

// What is told of it without its last byte: the whole record before was played.
const CUT_TOLD: &str = "silkroad 1
give 1 0 0 1
packet 1 2 3 0 0/10.0.0.9:4000 open to 0 0 1
reserve 4 0/10.0.0.9:4000 w1b0c0
place 6 0/10.0.0.9:4000 w1b0c0
exit 3 silkroad: capture: cut at 80
";

const NO_SERVER: &str = "exit 2 silkroad: script: no-such-server vip[0].pool[0]\n";

// Six openers on six of eight pipes, of which four find a row.
const SIX: &str = "raw 15=9 15=10 15=11 15=12 15=13 15=14";

const CHANGE: &str = "[[change]]\nat_ms = 0\nvip = 0\npool = [1]\n";

const WAITING: &[u8] = b"exit 7 silkroad: waiting for 0/10.0.0.12:4000\n";

// What is told where a key is waited for, before the key, and where none is.
const WAITS: &[u8] = b"exit 7 silkroad: waiting for 0/10.0.0.";

const DONE: &[u8] = b"exit 0\n";

// Six openers and a data segment, and where its record has its fraction of a second.
const SIX_AND_DATA: &str = "raw syn 15=10 15=11 15=12 15=13 15=14 data";

const FRACTION: usize = 364;

const LATE_CHANGE: &str = "[[change]]\nat_ms = 1\nvip = 0\npool = [1]\n";

const RUNS: &str = "steps|scene|1
steps|scene|2
steps|scene|3
steps|scene|4
steps|scene|5
steps|scene|6
steps|scene|7
steps|scene|8";

// The words, over a capture in pieces.
fn play_row<'a>(words: &'a str, input: &'a [u8]) -> Row<'a> {
    Row {
        words,
        ..row_of(input, 7)
    }
}

// Whether a row is told so.
fn is_told<R: Threads + Sync>(rt: &R, alloc: Global, row: &str) -> Result<bool, AllocError> {
    let (words, rest) = row.split_once('\n').unwrap_or((row, ""));
    let (segments, wanted) = rest.split_once('\n').unwrap_or((rest, ""));
    let input = capture(alloc, segments)?;
    let told = told_with(rt, alloc, play_row(words, &input), SCENE.as_bytes())?;
    Ok(told.bytes() == wanted.as_bytes())
}

// The first row of which something else is told. Empty where there is none.
fn mistold<R: Threads + Sync>(rt: &R, alloc: Global) -> Result<&'static str, AllocError> {
    for row in ROWS.split("==\n") {
        if !is_told(rt, alloc, row)? {
            return Ok(row);
        }
    }
    Ok("")
}

#[test]
fn captures(rt: HostRuntime) -> Result<(), Fail> {
    assert_eq!(rt; mistold(&rt, rt.alloc())?, "");
    Ok(())
}

// Whether a line has what stands before and after the ticks of another.
fn is_line(line: &[u8], wanted: &str) -> bool {
    match wanted.split_once('#') {
        Some((front, back)) => {
            line.len() > wanted.len().saturating_sub(1)
                && line.starts_with(front.as_bytes())
                && line.ends_with(back.as_bytes())
        }
        None => line == wanted.as_bytes(),
    }
}

// How many lines are such a line.
fn count_of(told: &[u8], wanted: &str) -> u64 {
    let mut count: u64 = 0;
    for line in told.split(|byte| *byte == b'\n') {
        if is_line(line, wanted) {
            count = count.saturating_add(1);
        }
    }
    count
}

// Whether these lines, and no others, are told, in whatever order and with whatever ticks.
fn is_replay(told: &[u8], wanted: &str) -> bool {
    let mut lines: u64 = 0;
    for line in wanted.split('\n') {
        if count_of(told, line) != 1 {
            return false;
        }
        lines = lines.saturating_add(1);
    }
    told.split(|byte| *byte == b'\n').count() as u64 == lines
}

// Whether a replay has its lines, and is lawful.
fn replays_row<R: Threads + Sync>(rt: &R, alloc: Global, row: &str) -> Result<bool, AllocError> {
    let (segments, wanted) = row.split_once('\n').unwrap_or((row, ""));
    let input = capture(alloc, segments)?;
    let told = told_with(rt, alloc, play_row(REPLAY, &input), SCENE.as_bytes())?;
    let lawful = is_lawful(rt, alloc, SCENE.as_bytes(), log_of(told.bytes()))?;
    Ok(lawful && is_replay(told.bytes(), wanted))
}

// The first replay that has other lines, or isn't lawful. Empty where there is none.
fn misplayed<R: Threads + Sync>(rt: &R, alloc: Global) -> Result<&'static str, AllocError> {
    for row in REPLAYS.split("==\n") {
        if !replays_row(rt, alloc, row)? {
            return Ok(row);
        }
    }
    Ok("")
}

// Whether a replay tells of a header that is refused, and of nothing else.
fn refuses_header<R: Threads + Sync>(rt: &R, alloc: Global) -> Result<bool, AllocError> {
    let input = capture(alloc, "header 0=213")?;
    let told = told_with(rt, alloc, play_row(REPLAY, &input), SCENE.as_bytes())?;
    Ok(told.bytes() == BAD_MAGIC.as_bytes())
}

#[test]
fn replays(rt: HostRuntime) -> Result<(), Fail> {
    assert_eq!(rt; misplayed(&rt, rt.alloc())?, "");
    assert!(rt; refuses_header(&rt, rt.alloc())?, "a header is refused");
    Ok(())
}

// What is told of the first run without its last byte.
fn told_of_cut<R: Threads + Sync>(
    rt: &R,
    alloc: Global,
    words: &str,
) -> Result<MemSink, AllocError> {
    let input = first_run(alloc)?;
    let cut = &input[..input.len().saturating_sub(1)];
    told_with(rt, alloc, play_row(words, cut), SCENE.as_bytes())
}

// Whether the first record alone is played of a capture whose second is cut.
fn tells_cut<R: Threads + Sync>(rt: &R, alloc: Global) -> Result<bool, AllocError> {
    let told = told_of_cut(rt, alloc, STEPS)?;
    let replayed = told_of_cut(rt, alloc, REPLAY)?;
    Ok(told.bytes() == CUT_TOLD.as_bytes() && is_replay(replayed.bytes(), REPLAY_CUT))
}

// Whether a refused script is told, of a capture that is refused too.
fn tells_script<R: Threads + Sync>(rt: &R, alloc: Global, words: &str) -> Result<bool, AllocError> {
    let script = scene_with(alloc, "pool = [0]", "pool = [2]")?;
    let told = told_with(rt, alloc, play_row(words, &[]), &script)?;
    Ok(told.bytes() == NO_SERVER.as_bytes())
}

#[test]
fn refusals(rt: HostRuntime) -> Result<(), Fail> {
    assert!(rt; tells_cut(&rt, rt.alloc())?, "a record is cut");
    for words in [REPLAY, STEPS].iter() {
        assert!(rt;
            tells_script(&rt, rt.alloc(), words)?,
            "a script is refused"
        );
    }
    Ok(())
}

// Whether a shelf without the script is a read fault.
fn lacks_script<R: Threads + Sync>(rt: &R, alloc: Global, words: &str) -> Result<bool, AllocError> {
    let mut none = MemShelf::new(Vec::new(alloc), Vec::new(alloc));
    let input = first_run(alloc)?;
    let told = told_over(rt, alloc, play_row(words, &input), &mut none)?;
    Ok(told.bytes() == READ_FAULT.as_bytes())
}

// Whether the second read's fault is told.
fn tells_read_fault<R: Threads + Sync>(
    rt: &R,
    alloc: Global,
    words: &str,
) -> Result<bool, AllocError> {
    let input = first_run(alloc)?;
    let row = Row {
        read_fails: 2,
        ..play_row(words, &input)
    };
    let told = told_with(rt, alloc, row, SCENE.as_bytes())?;
    Ok(told.bytes() == READ_FAULT.as_bytes())
}

// Whether lines of the first run's replay were printed, each whole, and then the sink failed. The last may be cut short.
fn is_replay_cut_short(told: &[u8]) -> bool {
    let Some(front) = told.strip_suffix(WRITE_FAULT.as_bytes()) else {
        return false;
    };
    let mut lines: u64 = 0;
    for wanted in REPLAYED.split('\n') {
        if !wanted.is_empty() {
            lines = lines.saturating_add(count_of(front, wanted));
        }
    }
    front.split(|byte| *byte == b'\n').count() as u64 <= lines.saturating_add(1)
}

// Whether a run that was cut short by the sink is told so.
fn is_cut_so(words: &str, told: &[u8]) -> bool {
    if words == REPLAY {
        is_replay_cut_short(told)
    } else {
        is_cut_short(told, PICKED)
    }
}

// The sink takes the head and five lines, and is flushed. The first call whose fault isn't told.
fn passed_over_write<R: Threads + Sync>(
    rt: &R,
    alloc: Global,
    words: &str,
) -> Result<Option<u64>, AllocError> {
    let input = first_run(alloc)?;
    for k in 1..=7 {
        let row = Row {
            write_fails: k,
            ..play_row(words, &input)
        };
        let told = told_with(rt, alloc, row, SCENE.as_bytes())?;
        if !is_cut_so(words, told.bytes()) {
            return Ok(Some(k));
        }
    }
    Ok(None)
}

#[test]
fn devices(rt: HostRuntime) -> Result<(), Fail> {
    for words in [REPLAY, STEPS].iter() {
        assert!(rt; lacks_script(&rt, rt.alloc(), words)?, "no script");
        assert!(rt; tells_read_fault(&rt, rt.alloc(), words)?, "a read fails");
        assert_eq!(rt;
            passed_over_write(&rt, rt.alloc(), words)?,
            None,
            "a write fails"
        );
    }
    Ok(())
}

// The scene with eight pipes, and a change that is due at once.
fn wide_scene(alloc: Global) -> Result<Vec<u8>, AllocError> {
    let mut script = scene_with(alloc, "pipes = 1", "pipes = 8")?;
    script.extend_from_slice(CHANGE.as_bytes())?;
    Ok(script)
}

// What is told of six openers with these words.
fn told_of_six<R: Threads + Sync>(
    rt: &R,
    alloc: Global,
    words: &str,
    script: &[u8],
) -> Result<MemSink, AllocError> {
    let input = capture(alloc, SIX)?;
    told_with(rt, alloc, play_row(words, &input), script)
}

// Whether the opener of a key without a place is waited for.
fn waits<R: Threads + Sync>(rt: &R, alloc: Global, words: &str) -> Result<bool, AllocError> {
    let script = wide_scene(alloc)?;
    let told = told_of_six(rt, alloc, words, &script)?;
    Ok(told.bytes().ends_with(WAITING))
}

// Six openers, and a data segment a millisecond later.
fn six_and_data(alloc: Global) -> Result<Vec<u8>, AllocError> {
    let mut input = capture(alloc, SIX_AND_DATA)?;
    for (at, byte) in [(FRACTION, 0xe8), (FRACTION + 1, 0x03)].iter() {
        if *at < input.len() {
            input[*at] = *byte;
        }
    }
    Ok(input)
}

// Whether a run ended well: no key is waited for, or one of the clients' is.
fn ends_well(told: &[u8]) -> bool {
    let end = &told[log_of(told).len().min(told.len())..];
    end == DONE || end.starts_with(WAITS)
}

// Whether a log has so many lines of packets.
fn has_packets(log: &[u8], packets: u64) -> bool {
    count_of(log, "packet #") == packets
}

// Whether a replay of six openers in one round ends well, each with its line, and its log is lawful, whatever the threads did.
fn replays_six<R: Threads + Sync>(rt: &R, alloc: Global) -> Result<bool, AllocError> {
    let script = wide_scene(alloc)?;
    let told = told_of_six(rt, alloc, REPLAY, &script)?;
    let log = log_of(told.bytes());
    let lawful = is_lawful(rt, alloc, &script, log)?;
    Ok(lawful && has_packets(log, 6) && ends_well(told.bytes()))
}

// Whether so does a replay over one pipe, with a change that comes due at a data segment after them.
fn replays_change<R: Threads + Sync>(rt: &R, alloc: Global) -> Result<bool, AllocError> {
    let mut script = Vec::from_slice(alloc, SCENE.as_bytes())?;
    script.extend_from_slice(LATE_CHANGE.as_bytes())?;
    let input = six_and_data(alloc)?;
    let told = told_with(rt, alloc, play_row(REPLAY, &input), &script)?;
    let log = log_of(told.bytes());
    let lawful = is_lawful(rt, alloc, &script, log)?;
    Ok(lawful && has_packets(log, 7) && ends_well(told.bytes()))
}

// What was printed, of what is told.
fn log_of(told: &[u8]) -> &[u8] {
    match told.windows(5).position(|part| part == b"exit ".as_slice()) {
        Some(at) => &told[..at],
        None => told,
    }
}

// The words of the first run whose log isn't lawful. Empty where there is none.
fn unlawful<R: Threads + Sync>(rt: &R, alloc: Global) -> Result<&'static str, AllocError> {
    let script = wide_scene(alloc)?;
    for words in RUNS.split('\n') {
        let told = told_of_six(rt, alloc, words, &script)?;
        if !is_lawful(rt, alloc, &script, log_of(told.bytes()))? {
            return Ok(words);
        }
    }
    Ok("")
}

#[test]
fn six_openers(rt: HostRuntime) -> Result<(), Fail> {
    assert!(rt;
        waits(&rt, rt.alloc(), "steps|scene|2")?,
        "a key is waited for"
    );
    assert!(rt; replays_six(&rt, rt.alloc())?, "openers in one round");
    assert!(rt; replays_change(&rt, rt.alloc())?, "a change comes due late");
    assert_eq!(rt; unlawful(&rt, rt.alloc())?, "");
    Ok(())
}
