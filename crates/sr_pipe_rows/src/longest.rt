//! The longest way of a packet.

ghost use Rattle.std.specs.Prelude.{◌<◌, ◌≡◌};

use crate::scene::{packet, scene_layout, vip_of};
use sr_base::{Kind, Phase, Version, VipWord};
use sr_core::PipeMachine;
use sr_machine::{Name, Op};
use std::test::Fail;

// What a step answers where its virtual address records openers and nothing else is to be seen.
fn answer(op: Op, recording: u64) -> u64 {
    match op {
        Op::Loads { name } => match name {
            Name::Vip { .. } => recording,
            _ => 0,
        },
        _ => 0,
    }
}

// An opener that learns in Recording: 2 ticks, 2 of its note, its virtual address, 12 places, head, member, down word, cell, 3 places of the
// filter, its report.
#[test]
fn longest_way(rt: HostRuntime) -> Result<(), Fail> {
    let layout = scene_layout(8).ok_or("layout")?;
    let recording = VipWord {
        phase: Phase::Recording,
        cur: Version::zero(),
        next: Version::zero(),
    };
    let opener = packet(1, 9, Kind::Opener);
    let mut pipe = PipeMachine::new(rt.alloc(), 0, &layout);
    pipe.reserve(1)?;
    assert!(rt; pipe.is_idle() && vip_of(&opener) < layout.vips() && pipe.lines().len() == 0);
    pipe.enter(opener);
    let mut steps: u32 = 0;
    for _ in 0..30 {
        if let Some(op) = pipe.next() {
            pipe.after(answer(op, recording.pack()));
            steps = steps.wrapping_add(1);
        }
    }
    assert_eq!(rt; steps, 25);
    assert!(rt; pipe.is_idle());
    Ok(())
}
