//! Packets over the words of a small scene, and their lines.

use crate::scene::{handled, packet, scene_board, scene_layout, stepped_through};
use sr_base::{Key, Kind, Version};
use sr_law::{Line, Verdict};
use sr_pipe::Pipe;
use std::test::Fail;

// The line of an opener or a data packet of the client 10.0.0.n that goes to the first server.
fn line_to(number: u32, entered: u64, n: u8, kind: Kind) -> Line {
    line_of(
        number,
        entered,
        n,
        kind,
        Verdict::To {
            server: 0,
            version: Version::zero(),
            pool: 1,
        },
    )
}

// A line with two ticks that follow one another.
fn line_of(number: u32, entered: u64, n: u8, kind: Kind, verdict: Verdict) -> Line {
    Line::Packet {
        number,
        entered,
        out: entered.wrapping_add(1),
        pipe: 0,
        key: Key {
            vip: 0,
            ip: 0x0a00_0000 + n as u32,
            port: 4000,
        },
        kind,
        verdict,
    }
}

// Single steps: an opener answers Running 21 times, a data packet 19 times.
#[test]
fn single_steps(rt: HostRuntime) -> Result<(), Fail> {
    for (kind, running) in [(Kind::Opener, 21), (Kind::Carry, 19)] {
        let layout = scene_layout(8).ok_or("layout")?;
        let mut board = scene_board(rt.alloc(), &layout)?.ok_or("pool")?;
        let mut pipe = Pipe::new(rt.alloc(), 0, &layout);
        let done = stepped_through(&layout, &mut pipe, &mut board, packet(1, 9, kind));
        let (steps, line) = done.ok_or("no line")?;
        assert_eq!(rt; steps, running);
        assert!(rt; line == line_to(1, 2, 9, kind));
    }
    Ok(())
}

// A repeated SYN, before the controller has done anything: both go to the server.
#[test]
fn repeated_syn(rt: HostRuntime) -> Result<(), Fail> {
    let layout = scene_layout(8).ok_or("layout")?;
    let mut board = scene_board(rt.alloc(), &layout)?.ok_or("pool")?;
    let mut pipe = Pipe::new(rt.alloc(), 0, &layout);
    let first = handled(&layout, &mut pipe, &mut board, packet(1, 9, Kind::Opener));
    let second = handled(&layout, &mut pipe, &mut board, packet(2, 9, Kind::Opener));
    assert!(rt; first.ok_or("first")? == line_to(1, 2, 9, Kind::Opener));
    assert!(rt; second.ok_or("second")? == line_to(2, 4, 9, Kind::Opener));
    Ok(())
}

// A ring of one cell: the second opener finds it full.
#[test]
fn ring_full(rt: HostRuntime) -> Result<(), Fail> {
    let layout = scene_layout(1).ok_or("layout")?;
    let mut board = scene_board(rt.alloc(), &layout)?.ok_or("pool")?;
    let mut pipe = Pipe::new(rt.alloc(), 0, &layout);
    let first = handled(&layout, &mut pipe, &mut board, packet(1, 9, Kind::Opener));
    let second = handled(&layout, &mut pipe, &mut board, packet(2, 10, Kind::Opener));
    assert!(rt; first.ok_or("first")? == line_to(1, 2, 9, Kind::Opener));
    assert!(rt; second.ok_or("second")? == line_of(2, 4, 10, Kind::Opener, Verdict::Full));
    Ok(())
}
