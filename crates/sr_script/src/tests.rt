//! Addresses, and whole scripts.
use crate::{address, parse};
use std::alloc::Global;
use std::process::Abort;
use std::test::Fail;

mod refusals;

/// Texts that are addresses, with the address and the port as numbers.
const ADDRESSES: &str = "\
192.0.2.1:80 3221225985 80
0.0.0.0:1 0 1
255.255.255.255:65535 4294967295 65535
10.1.0.10:8080 167837706 8080";

/// Texts that are no addresses, one a line.
const NO_ADDRESSES: &str =
    "\n1.2.3.4\n1.2.3.4:\n1.2.3.4:0\n1.2.3.4:00\n1.2.3.4:01\n1.2.3.4:65536\n1.2.3.4:99999999999999999999\n1.2.3.4:80 \n 1.2.3.4:80\n1.2.3.4:+80\n256.2.3.4:80\n01.2.3.4:80\n1.2.03.4:80\n1.2.3:80\n1.2.3.4.5:80\n1..3.4:80\n1.2.3.4:80:80\na.b.c.d:p";

/// A small scene: one pipe, one bucket, two servers.
const SCENE: &str = "\
servers = ['10.1.0.1:80', '10.1.0.2:80']
[shape]
pipes = 1
buckets = 1
digest_bits = 0
versions = 4
pool_max = 1
full_rows = 4
filter_bits = 1
ring = 8
window_ms = 1
idle_ms = 1
lives = 1
[[vip]]
addr = '192.0.2.1:80'
pool = [0]
";

const SCENE_SAYS: &str =
    "Script { shape: Shape { pipes: 1, buckets: 1, digest_bits: 0, versions: 4, pool_max: 1, full_rows: 4, filter_bits: 1, \
    ring: 8, window_ms: 1, idle_ms: 1, lives: 1 }, vips: [(3221225985, 80)], servers: [(167837697, 80), (167837698, 80)], \
    first: [Pool { servers: [0] }], changes: [] }";

/// Sixteen servers, four virtual addresses, and a change each second and a half that leaves one of four servers out.
const DEMO: &str = "\
shape = { pipes = 8, idle_ms = 1000 }
servers = ['10.1.0.1:80', '10.1.0.2:80', '10.1.0.3:80', '10.1.0.4:80', '10.1.0.5:80', '10.1.0.6:80', '10.1.0.7:80', '10.1.0.8:80', '10.1.0.9:80', '10.1.0.10:80', '10.1.0.11:80', '10.1.0.12:80', '10.1.0.13:80', '10.1.0.14:80', '10.1.0.15:80', '10.1.0.16:80']
[[vip]]
addr = '192.0.2.1:80'
pool = [0, 1, 2, 3]
[[vip]]
addr = '192.0.2.2:80'
pool = [4, 5, 6, 7]
[[vip]]
addr = '192.0.2.3:80'
pool = [8, 9, 10, 11]
[[vip]]
addr = '192.0.2.4:80'
pool = [12, 13, 14, 15]
[[change]]
at_ms = 1500
vip = 0
pool = [1, 2, 3]
[[change]]
at_ms = 3000
vip = 1
pool = [5, 6, 7]
[[change]]
at_ms = 4500
vip = 2
pool = [9, 10, 11]
[[change]]
at_ms = 6000
vip = 3
pool = [13, 14, 15]
[[change]]
at_ms = 7500
vip = 0
pool = [0, 2, 3]
[[change]]
at_ms = 9000
vip = 1
pool = [4, 6, 7]
[[change]]
at_ms = 10500
vip = 2
pool = [8, 10, 11]
[[change]]
at_ms = 12000
vip = 3
pool = [12, 14, 15]
[[change]]
at_ms = 13500
vip = 0
pool = [0, 1, 3]
[[change]]
at_ms = 15000
vip = 1
pool = [4, 5, 7]
[[change]]
at_ms = 16500
vip = 2
pool = [8, 9, 11]
[[change]]
at_ms = 18000
vip = 3
pool = [12, 13, 15]
";

const DEMO_SAYS: &str =
    "Script { shape: Shape { pipes: 8, buckets: 8192, digest_bits: 16, versions: 64, pool_max: 16, full_rows: 1024, \
    filter_bits: 65536, ring: 65536, window_ms: 100, idle_ms: 1000, lives: 3 }, vips: [(3221225985, 80), (3221225986, 80), \
    (3221225987, 80), (3221225988, 80)], servers: [(167837697, 80), (167837698, 80), (167837699, 80), (167837700, 80), \
    (167837701, 80), (167837702, 80), (167837703, 80), (167837704, 80), (167837705, 80), (167837706, 80), (167837707, 80), \
    (167837708, 80), (167837709, 80), (167837710, 80), (167837711, 80), (167837712, 80)], first: [Pool { servers: [0, 1, 2, \
    3] }, Pool { servers: [4, 5, 6, 7] }, Pool { servers: [8, 9, 10, 11] }, Pool { servers: [12, 13, 14, 15] }], changes: \
    [Change { at_ms: 1500, what: Give { vip: 0, pool: Pool { servers: [1, 2, 3] } } }, Change { at_ms: 3000, what: Give { \
    vip: 1, pool: Pool { servers: [5, 6, 7] } } }, Change { at_ms: 4500, what: Give { vip: 2, pool: Pool { servers: [9, 10, \
    11] } } }, Change { at_ms: 6000, what: Give { vip: 3, pool: Pool { servers: [13, 14, 15] } } }, Change { at_ms: 7500, \
    what: Give { vip: 0, pool: Pool { servers: [0, 2, 3] } } }, Change { at_ms: 9000, what: Give { vip: 1, pool: Pool { \
    servers: [4, 6, 7] } } }, Change { at_ms: 10500, what: Give { vip: 2, pool: Pool { servers: [8, 10, 11] } } }, Change { \
    at_ms: 12000, what: Give { vip: 3, pool: Pool { servers: [12, 14, 15] } } }, Change { at_ms: 13500, what: Give { vip: 0, \
    pool: Pool { servers: [0, 1, 3] } } }, Change { at_ms: 15000, what: Give { vip: 1, pool: Pool { servers: [4, 5, 7] } } \
    }, Change { at_ms: 16500, what: Give { vip: 2, pool: Pool { servers: [8, 9, 11] } } }, Change { at_ms: 18000, what: Give \
    { vip: 3, pool: Pool { servers: [12, 13, 15] } } }] }";

fn spells(rt: &impl Abort, alloc: Global, text: &str, says: &str) -> Result<(), Fail> {
    match parse(alloc, text.as_bytes()) {
        Ok(script) => {
            let shown = format!(in alloc; "{script:?}")?;
            assert_eq!(rt; shown.as_str(), says);
        }
        Err(_) => panic!(rt; "refused: {text}"),
    }
    Ok(())
}

#[test]
fn scene(rt: HostRuntime) -> Result<(), Fail> {
    spells(&rt, rt.alloc(), SCENE, SCENE_SAYS)
}

#[test]
fn demo(rt: HostRuntime) -> Result<(), Fail> {
    spells(&rt, rt.alloc(), DEMO, DEMO_SAYS)
}

fn reads(rt: &impl Abort, alloc: Global, text: &str, says: &str) -> Result<(), Fail> {
    match address(text) {
        Some((ip, port)) => {
            let shown = format!(in alloc; "{ip} {port}")?;
            assert_eq!(rt; shown.as_str(), says);
        }
        None => panic!(rt; "refused: {text}"),
    }
    Ok(())
}

fn all_read(rt: &impl Abort, alloc: Global, rows: &str) -> Result<(), Fail> {
    for row in rows.lines() {
        let (text, says) = row.split_once(' ').ok_or("a row without numbers")?;
        reads(rt, alloc, text, says)?;
    }
    Ok(())
}

fn none_read(rt: &impl Abort, rows: &str) {
    for text in rows.lines() {
        assert!(rt; address(text).is_none(), "{text}");
    }
}

#[test]
fn addresses(rt: HostRuntime) -> Result<(), Fail> {
    all_read(&rt, rt.alloc(), ADDRESSES)
}

#[test]
fn no_addresses(rt: HostRuntime) {
    none_read(&rt, NO_ADDRESSES);
}
