//! A packet over words that threads share, and the end of such words.

ghost use Rattle.std.specs.Prelude.{◌≡◌, ◌≤◌, IfOk, IfSome};

use crate::scene::{packet, scene_layout, vip_of};
use sr_acts::MachineConfig;
use sr_base::{Key, Kind, Layout, Packet, Pool, Version, layout_ranges};
use sr_io::OpenGate;
use sr_law::{Line, Pools, Verdict};
use sr_pipe::Pipe;
use sr_words::{Boards, Switch};
use std::alloc::{AllocError, Global};
use std::test::Fail;

// The scene's machine, which is to make no change.
fn scene_config(alloc: Global, layout: &Layout) -> Result<Option<MachineConfig>, AllocError>
    requires vips { layout.now.vips ≡ 1 }
    requires servers { layout.now.servers ≡ 2 }
    requires pools { 1 ≤ layout.now.shape.pool_max }
    ensures { IfOk result (λ o. IfSome o (λ k. k.layout ≡ layout.now)) }
{
    let mut servers = Vec::new(alloc);
    servers.push(0)?;
    let Some(pool) = Pool::new(servers) else {
        return Ok(None);
    };
    let mut first = Vec::new(alloc);
    first.push(pool)?;
    let changes = Vec::new(alloc);
    let pools = Pools::new(alloc, first.as_slice(), changes.as_slice())?;
    Ok(Some(MachineConfig::new(layout, pools, changes)))
}

// The line of a packet that is the first one on pipe 0. None where it can't enter.
fn first_line(
    alloc: Global,
    layout: &Layout,
    config: &MachineConfig,
    packet: Packet,
) -> Result<Option<Line>, AllocError>
    requires { config.now.layout ≡ layout.now }
{
    layout_ranges(layout);
    let (switch, first) = Switch::new(alloc, config)?;
    let boards = switch.boards(alloc, first)?;
    let Boards {
        mut pipes,
        controller: _controller,
    } = boards;
    if pipes.is_empty() || vip_of(&packet) >= layout.vips() {
        return Ok(None);
    }
    let mut board = pipes.remove(0);
    let mut pipe = Pipe::new(alloc, 0, layout);
    pipe.reserve(1)?;
    Ok(Some(pipe.handle(&mut board, packet, &OpenGate)))
}

// The boards of idle pipes are joined, and the words closed.
fn rests_and_closes(alloc: Global, config: &MachineConfig) -> Result<(), AllocError> {
    let (switch, first) = Switch::new(alloc, config)?;
    let boards = switch.boards(alloc, first)?;
    let resting = boards.rest();
    let rested = resting.leave();
    let _closed = switch.close(rested);
    Ok(())
}

// A data packet draws the ticks 2 and 3, finds the head of the first pool and every other word 0, and goes to its server.
#[test]
fn data_packet(rt: HostRuntime) -> Result<(), Fail> {
    let layout = scene_layout(8).ok_or("layout")?;
    let config = scene_config(rt.alloc(), &layout)?.ok_or("pool")?;
    let line = first_line(rt.alloc(), &layout, &config, packet(1, 9, Kind::Carry))?;
    assert!(rt;
        line.ok_or("line")?
            == Line::Packet {
                number: 1,
                entered: 2,
                out: 3,
                pipe: 0,
                key: Key {
                    vip: 0,
                    ip: 0x0a00_0009,
                    port: 4000
                },
                kind: Kind::Carry,
                verdict: Verdict::To {
                    server: 0,
                    version: Version::zero(),
                    pool: 1
                },
            }
    );
    rests_and_closes(rt.alloc(), &config)?;
    Ok(())
}
