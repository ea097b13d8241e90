//! Worked rows: three windows, and one that is longer than a round may be.
use crate::{Round, Timed, rounds};
use sr_base::{Key, Kind, Packet, Shape};
use std::alloc::{AllocError, Global};
use std::test::Fail;

const SHAPE: Shape = Shape {
    pipes: 1,
    buckets: 1,
    digest_bits: 0,
    versions: 2,
    pool_max: 1,
    full_rows: 4,
    filter_bits: 1,
    ring: 1,
    window_ms: 100,
    idle_ms: 1,
    lives: 1,
};

// A packet that comes at this time.
fn packet_at(ms: u64) -> Timed {
    let key = Key {
        vip: 0,
        ip: 9,
        port: 4000,
    };
    Timed {
        packet: Packet {
            number: 1,
            key,
            kind: Kind::Carry,
        },
        ms,
    }
}

// Packets that come at these times, so many at each.
fn packets(alloc: Global, times: &[(u64, usize)]) -> Result<Vec<Timed>, AllocError> {
    let mut packets = Vec::new(alloc);
    for (ms, count) in times {
        for _ in 0..*count {
            packets.push(packet_at(*ms))?;
        }
    }
    Ok(packets)
}

#[test]
fn windows_are_cut_where_they_are_full(rt: HostRuntime) -> Result<(), Fail> {
    let packets = packets(
        rt.alloc(),
        &[(0, 1), (99, 1), (100, 1), (350, 65_537), (400, 1)],
    )?;
    let rounds = rounds(rt.alloc(), &packets, &SHAPE)?;
    let want = [
        (0, 0, 2),
        (100, 2, 3),
        (300, 3, 65_539),
        (300, 65_539, 65_540),
        (400, 65_540, 65_541),
    ];
    assert_eq!(rt; rounds.len(), want.len());
    for (round, (start_ms, from, to)) in rounds.iter().zip(want) {
        assert_eq!(rt; *round, Round { start_ms, from, to });
    }
    Ok(())
}
