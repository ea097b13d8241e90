//! A small scene: one pipe, one bucket a way without digest bits, two servers, and one virtual address whose first pool is server 0. All
//! keys clash in both ways.

ghost use Rattle.std.specs.Prelude.{◌≡◌, ◌≤◌, ◌<◌, IfOk, IfSome, IsTrue, true, false, length};
ghost use Rattle.sr_machine.specs.Pipe.{is_idle};
ghost use Rattle.sr_pipe.specs.Known.{IsFor};

use sr_base::{Key, Kind, Layout, Packet, Pool, Shape};
use sr_io::OpenGate;
use sr_law::Line;
use sr_machine::{Actor, Board};
use sr_pipe::{Pipe, Progress};
use sr_plain::PlainBoard;
use std::alloc::{AllocError, Global};

// Its layout, with rings of so many cells.
pub(crate) fn scene_layout(ring: u32) -> Option<Layout>
    ensures vips { IfSome result (λ l. l.vips ≡ 1) }
    ensures servers { IfSome result (λ l. l.servers ≡ 2) }
    ensures pools { IfSome result (λ l. 1 ≤ l.shape.pool_max) }
    ensures pipes { IfSome result (λ l. l.shape.pipes ≡ 1) }
{
    let shape = Shape {
        pipes: 1,
        buckets: 1,
        digest_bits: 0,
        versions: 4,
        pool_max: 1,
        full_rows: 4,
        filter_bits: 1,
        ring,
        window_ms: 1,
        idle_ms: 1,
        lives: 1,
    };
    match Layout::new(shape, 1, 2) {
        Ok(layout) => Some(layout),
        Err(_) => None,
    }
}

// Its words at the beginning.
pub(crate) fn scene_board(alloc: Global, layout: &Layout) -> Result<Option<PlainBoard>, AllocError>
    requires vips { layout.now.vips ≡ 1 }
    requires servers { layout.now.servers ≡ 2 }
    requires pools { 1 ≤ layout.now.shape.pool_max }
    ensures { IfOk result (λ o. IfSome o (λ b. b.layout ≡ layout.now)) }
{
    let mut servers = Vec::new(alloc);
    servers.push(0)?;
    let Some(pool) = Pool::new(servers) else {
        return Ok(None);
    };
    let mut first = Vec::new(alloc);
    first.push(pool)?;
    let board = PlainBoard::new(alloc, layout, first.as_slice())?;
    Ok(Some(board))
}

// A packet of the client 10.0.0.n, port 4000.
pub(crate) fn packet(number: u32, n: u8, kind: Kind) -> Packet {
    Packet {
        number,
        key: Key {
            vip: 0,
            ip: 0x0a00_0000 + n as u32,
            port: 4000,
        },
        kind,
    }
}

// The virtual address of a packet.
pub(crate) fn vip_of(packet: &Packet) -> u8
    ensures { result ≡ packet.now.key.vip }
{
    packet.key.vip
}

// Whether a packet can enter on a pipe of this layout.
fn can_enter(layout: &Layout, pipe: &Pipe, packet: &Packet) -> bool
    ensures idle { IsTrue result → is_idle pipe.now.view.stage ≡ true }
    ensures lines { IsTrue result → length pipe.now.view.lines < 1000 }
    ensures number { IsTrue result → pipe.now.view.number < layout.now.shape.pipes }
    ensures vip { IsTrue result → packet.now.key.vip < layout.now.vips }
{
    pipe.is_idle()
        && pipe.lines().len() < 1000
        && pipe.number() < layout.shape().pipes
        && vip_of(packet) < layout.vips()
}

// The line of a packet that is handled at one go. None where it can't enter.
pub(crate) fn handled(
    layout: &Layout,
    pipe: &mut Pipe,
    board: &mut PlainBoard,
    packet: Packet,
) -> Option<Line>
    requires pipe { pipe.old.layout ≡ layout.now }
    requires board { board.old.layout ≡ layout.now }
    ensures pipe { pipe.new.layout ≡ layout.now }
    ensures board { board.new.layout ≡ layout.now }
{
    if !can_enter(layout, pipe, &packet) {
        return None;
    }
    pipe.reserve(1).ok()?;
    let number = pipe.number();
    let mut actor = board.as_actor(Actor::Pipe(number));
    Some(pipe.handle(&mut actor, packet, &OpenGate))
}

// The steps of the packet in hand before its last one, and its line.
pub(crate) fn stepped<B: Board>(pipe: &mut Pipe, board: &mut B) -> Option<(u32, Line)>
    requires busy { is_idle pipe.old.view.stage ≡ false }
    requires board { IsFor (B.fits board.old) (B.beside board.old) pipe.old }
{
    for n in 0..30 {
        match pipe.step(board) {
            Progress::Running => {}
            Progress::Done(line) => return Some((n, line)),
        }
    }
    None
}

// How many steps of a packet answer that it is running, and its line. None where it can't enter.
pub(crate) fn stepped_through(
    layout: &Layout,
    pipe: &mut Pipe,
    board: &mut PlainBoard,
    packet: Packet,
) -> Option<(u32, Line)>
    requires pipe { pipe.old.layout ≡ layout.now }
    requires board { board.old.layout ≡ layout.now }
{
    if !can_enter(layout, pipe, &packet) {
        return None;
    }
    pipe.reserve(1).ok()?;
    let number = pipe.number();
    let mut actor = board.as_actor(Actor::Pipe(number));
    pipe.enter(&mut actor, packet);
    stepped(pipe, &mut actor)
}
