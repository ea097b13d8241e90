//! Texts that are no scripts, with the fault and the path that the walk gives first. A row is a word, a path (`-` where it is empty) and a
//! text, whose lines end with `;`.
use crate::{ParseRefusal, parse};
use std::alloc::Global;
use std::process::Abort;
use std::test::Fail;

/// Texts as they are.
const TOP: &str = "\
not-toml - =
not-toml - servers = [
not-toml - servers = 1;servers = 2
unknown-key alpha zeta = 1;alpha = 1
unknown-key vips shape = 1;servers = 1;vips = 1
unknown-key Shape Shape = 1
unknown-key a.b 'a.b' = 1
wrong-type shape shape = 1
wrong-type shape [[shape]]
unknown-key shape.a servers = 1;[shape];x = 1;lives = 0;a = 2
out-of-range shape.pipes [shape];lives = 0;pipes = 0
wrong-type shape.idle_ms [shape];lives = 0;idle_ms = '1'
missing servers shape = { lives = 1 }
wrong-type servers servers = 1
out-of-range servers servers = []
wrong-type servers[0] servers = [1]
wrong-type servers[1] servers = ['1.2.3.4:5', ['1.2.3.4:5']]
out-of-range servers[0] servers = ['1.2.3.4']
repeated servers[2] servers = ['1.2.3.4:5', '1.2.3.4:6', '1.2.3.4:5', 1]
missing vip servers = ['1.2.3.4:5']";

/// What follows two servers and a shape with pools of up to two.
const SERVERS: &str = "servers = ['10.1.0.1:80', '10.1.0.2:80']; shape = { pool_max = 2 }; ";

const VIPS: &str = "\
wrong-type vip vip = 1
wrong-type vip [vip]
out-of-range vip vip = []
wrong-type vip[0] vip = [1]
too-many-vips vip vip = [1, 1, 1, 1, 1, 1, 1, 1, 1, 1, 1, 1, 1, 1, 1, 1, 1]
unknown-key vip[0].adr vip = [{ addr = 3, x = 1, adr = 2 }]
missing vip[0].addr vip = [{}]
wrong-type vip[0].addr vip = [{ addr = 3 }]
out-of-range vip[0].addr vip = [{ addr = '192.0.2.1:0' }]
missing vip[0].pool vip = [{ addr = '192.0.2.1:80' }]
wrong-type vip[0].pool vip = [{ addr = '192.0.2.1:80', pool = 0 }]
empty-pool vip[0].pool vip = [{ addr = '192.0.2.1:80', pool = [] }]
pool-too-large vip[0].pool vip = [{ addr = '192.0.2.1:80', pool = [7, 7, 7] }]
wrong-type vip[0].pool[1] vip = [{ addr = '192.0.2.1:80', pool = [0, '1'] }]
no-such-server vip[0].pool[0] vip = [{ addr = '192.0.2.1:80', pool = [2] }]
no-such-server vip[0].pool[1] vip = [{ addr = '192.0.2.1:80', pool = [0, -1] }]
repeated vip[0].pool[1] vip = [{ addr = '192.0.2.1:80', pool = [1, 1] }]
repeated vip[1].addr vip = [{ addr = '192.0.2.1:80', pool = [0] }, { addr = '192.0.2.1:80' }]";

/// What follows these and two virtual addresses.
const FRONT: &str =
    "servers = ['10.1.0.1:80', '10.1.0.2:80']; shape = { pool_max = 2 }; vip = [{ addr = '192.0.2.1:80', pool = [0] }, { addr = '192.0.2.2:80', pool = [1, 0] }]; ";

const CHANGES: &str = "\
wrong-type change change = 1
wrong-type change [change]
wrong-type change[0] change = [1]
unknown-key change[1].at change = [{ at_ms = 0, down = 0 }, { z = 1, at = 1 }]
unknown-key change[0].down change = [{ down = 0, pool = [0] }]
unknown-key change[0].down change = [{ down = 0, vip = 0 }]
unknown-key change[0].a change = [{ down = 0, vip = 0, a = 1 }]
unknown-key change[0].down change = [{ down = 0, vip = 0, e = 1 }]
missing change[0].at_ms change = [{ down = 9 }]
wrong-type change[0].at_ms change = [{ at_ms = '0' }]
out-of-range change[0].at_ms change = [{ at_ms = -1 }]
out-of-range change[0].at_ms change = [{ at_ms = 9007199254740992 }]
out-of-range change[2].at_ms change = [{ at_ms = 5, down = 0 }, { at_ms = 5, down = 1 }, { at_ms = 4 }]
missing change[0].vip change = [{ at_ms = 9007199254740991 }]
missing change[0].vip change = [{ at_ms = 0, pool = [] }]
wrong-type change[0].vip change = [{ at_ms = 0, vip = 0.0 }]
no-such-vip change[0].vip change = [{ at_ms = 0, vip = 2 }]
no-such-vip change[0].vip change = [{ at_ms = 0, vip = -1 }]
missing change[0].pool change = [{ at_ms = 0, vip = 1 }]
wrong-type change[0].pool change = [{ at_ms = 0, vip = 1, pool = {} }]
empty-pool change[0].pool change = [{ at_ms = 0, vip = 1, pool = [] }]
pool-too-large change[0].pool change = [{ at_ms = 0, vip = 1, pool = [0, 1, 0] }]
wrong-type change[0].pool[0] change = [{ at_ms = 0, vip = 1, pool = [[0]] }]
no-such-server change[0].pool[1] change = [{ at_ms = 0, vip = 1, pool = [1, 2] }]
repeated change[0].pool[1] change = [{ at_ms = 0, vip = 1, pool = [1, 1] }]
wrong-type change[0].down change = [{ at_ms = 0, down = true }]
no-such-server change[0].down change = [{ at_ms = 0, down = 2 }]
repeated change[1].down change = [{ at_ms = 0, down = 1 }, { at_ms = 0, down = 1 }]";

/// Numbers of a shape that are out of range, or no whole numbers.
const NUMBERS: &str = "\
out-of-range shape.pipes [shape];pipes = 0
wrong-type shape.pipes [shape];pipes = 0.0
out-of-range shape.pipes [shape];pipes = 17
out-of-range shape.buckets [shape];buckets = 0
wrong-type shape.buckets [shape];buckets = 0.0
out-of-range shape.buckets [shape];buckets = 3
out-of-range shape.buckets [shape];buckets = 131072
out-of-range shape.digest_bits [shape];digest_bits = -1
wrong-type shape.digest_bits [shape];digest_bits = -1.0
out-of-range shape.digest_bits [shape];digest_bits = 17
out-of-range shape.versions [shape];versions = 1
wrong-type shape.versions [shape];versions = 1.0
out-of-range shape.versions [shape];versions = 65
out-of-range shape.pool_max [shape];pool_max = 0
wrong-type shape.pool_max [shape];pool_max = 0.0
out-of-range shape.pool_max [shape];pool_max = 256
out-of-range shape.full_rows [shape];full_rows = 0
wrong-type shape.full_rows [shape];full_rows = 0.0
out-of-range shape.full_rows [shape];full_rows = 6
out-of-range shape.full_rows [shape];full_rows = 65540
out-of-range shape.filter_bits [shape];filter_bits = 0
wrong-type shape.filter_bits [shape];filter_bits = 0.0
out-of-range shape.filter_bits [shape];filter_bits = 48
out-of-range shape.filter_bits [shape];filter_bits = 2097152
out-of-range shape.ring [shape];ring = 0
wrong-type shape.ring [shape];ring = 0.0
out-of-range shape.ring [shape];ring = 65537
out-of-range shape.window_ms [shape];window_ms = 0
wrong-type shape.window_ms [shape];window_ms = 0.0
out-of-range shape.window_ms [shape];window_ms = 60001
out-of-range shape.idle_ms [shape];idle_ms = 0
wrong-type shape.idle_ms [shape];idle_ms = 0.0
out-of-range shape.idle_ms [shape];idle_ms = 86400001
out-of-range shape.lives [shape];lives = 0
wrong-type shape.lives [shape];lives = 0.0
out-of-range shape.lives [shape];lives = 256";

/// What follows the servers of the small scene.
const SCENE: &str = "servers = ['10.1.0.1:80', '10.1.0.2:80']; ";

const SCENES: &str = "\
no-such-server vip[0].pool[0] [shape]; pipes = 1; buckets = 1; digest_bits = 0; versions = 4; pool_max = 1; full_rows = 4; filter_bits = 1; window_ms = 1; idle_ms = 1; lives = 1; ring = 8; [[vip]]; addr = '192.0.2.1:80'; pool = [2]
empty-pool vip[0].pool [shape]; pipes = 1; buckets = 1; digest_bits = 0; versions = 4; pool_max = 1; full_rows = 4; filter_bits = 1; window_ms = 1; idle_ms = 1; lives = 1; ring = 8; [[vip]]; addr = '192.0.2.1:80'; pool = []
out-of-range shape.ring [shape]; pipes = 1; buckets = 1; digest_bits = 0; versions = 4; pool_max = 1; full_rows = 4; filter_bits = 1; window_ms = 1; idle_ms = 1; lives = 1; ring = 0; [[vip]]; addr = '192.0.2.1:80'; pool = [0]
missing vip [shape]; pipes = 1; buckets = 1; digest_bits = 0; versions = 4; pool_max = 1; full_rows = 4; filter_bits = 1; window_ms = 1; idle_ms = 1; lives = 1; ring = 8";

fn refused(rt: &impl Abort, alloc: Global, text: &str, word: &str, path: &str) {
    match parse(alloc, text.as_bytes()) {
        Ok(_) => panic!(rt; "taken: {text}"),
        Err(ParseRefusal::Memory) => panic!(rt; "no memory: {text}"),
        Err(ParseRefusal::Script(refusal)) => {
            assert_eq!(rt; refusal.why.word(), word, "{text}");
            assert_eq!(rt; refusal.path.as_str(), path, "{text}");
        }
    }
}

fn push_lines(text: &mut String, lines: &str) -> Result<(), Fail> {
    for line in lines.split(';') {
        text.push_str(line)?;
        text.push_str("\n")?;
    }
    Ok(())
}

fn all_refused(rt: &impl Abort, alloc: Global, front: &str, rows: &str) -> Result<(), Fail> {
    for row in rows.lines() {
        let (word, rest) = row.split_once(' ').ok_or("a row without a path")?;
        let (path, lines) = rest.split_once(' ').ok_or("a row without a text")?;
        let path = if path == "-" { "" } else { path };
        let mut text = String::new(alloc);
        push_lines(&mut text, front)?;
        push_lines(&mut text, lines)?;
        refused(rt, alloc, text.as_str(), word, path);
    }
    Ok(())
}

#[test]
fn top(rt: HostRuntime) -> Result<(), Fail> {
    all_refused(&rt, rt.alloc(), "", TOP)
}

#[test]
fn numbers(rt: HostRuntime) -> Result<(), Fail> {
    all_refused(&rt, rt.alloc(), "", NUMBERS)
}

#[test]
fn virtual_addresses(rt: HostRuntime) -> Result<(), Fail> {
    all_refused(&rt, rt.alloc(), SERVERS, VIPS)
}

#[test]
fn changes(rt: HostRuntime) -> Result<(), Fail> {
    all_refused(&rt, rt.alloc(), FRONT, CHANGES)
}

#[test]
fn scene(rt: HostRuntime) -> Result<(), Fail> {
    all_refused(&rt, rt.alloc(), SCENE, SCENES)
}

fn with_ones(alloc: Global, front: &str, key: &str, count: u32) -> Result<String, Fail> {
    let mut text = String::new(alloc);
    push_lines(&mut text, front)?;
    text.push_str(key)?;
    text.push_str(" = [")?;
    for _ in 0..count {
        text.push_str("1, ")?;
    }
    text.push_str("]\n")?;
    Ok(text)
}

#[test]
fn too_many_changes(rt: HostRuntime) -> Result<(), Fail> {
    let text = with_ones(rt.alloc(), FRONT, "change", 4_097)?;
    refused(&rt, rt.alloc(), text.as_str(), "too-many-changes", "change");
    Ok(())
}

#[test]
fn too_many_servers(rt: HostRuntime) -> Result<(), Fail> {
    let text = with_ones(rt.alloc(), "", "servers", 65_537)?;
    refused(&rt, rt.alloc(), text.as_str(), "out-of-range", "servers");
    Ok(())
}
