//! A packet that goes by a version: its server, and whether that is down.

ghost use Rattle.std.specs.Prelude.{◌≡◌, ◌<◌, ◌≤◌, if◌then◌else◌};
ghost use Rattle.sr_core.specs.Tracks.{FitsFlight};
ghost use Rattle.sr_machine.specs.Stages.{last_by};
ghost use Rattle.sr_machine.specs.declared.leg.Last.TheVariants.{Out as AnOut, Ring as ARing};
ghost use Rattle.sr_machine.specs.declared.leg.Leg.TheVariants.{Chosen, Judged};
ghost use Rattle.sr_machine.specs.declared.leg.Load.TheVariants.{Down as ADown, Head as AHead, Member as AMember};
ghost use Rattle.sr_machine.specs.declared.stage.Stage.TheVariants.{Fly};
ghost use Rattle.sr_pipe.specs.Causes.{is_down};
ghost use Rattle.sr_pipe.specs.Known.{Goes, IsFor, at_stage, known, staged};

use sr_base::{Kind, RowHead, Version, WordName};
use sr_core::PipeMachine;
use sr_core::course::verdict_by;
use sr_core::reads::{read_flag, read_head, read_server};
use sr_hash::select;
use sr_law::Verdict;
use sr_machine::{Board, Flight};

// The packet's virtual address.
fn vip_of(flight: &Flight) -> u8
    ensures { result ≡ flight.now.packet.key.vip }
{
    flight.packet.key.vip
}

// It loads the head of its version.
fn load_head<B: Board>(
    board: &mut B,
    pipe: &PipeMachine,
    flight: &Flight,
    version: Version,
) -> RowHead
    requires flight { FitsFlight pipe.now.layout flight.now }
    requires version { version < pipe.now.layout.shape.versions }
    requires board { IsFor (B.fits board.old) (B.beside board.old) (at_stage pipe.now (Fly flight.now (Chosen version AHead))) }
    ensures goes { Goes pipe.now.layout (known (B.fits board.old) (B.shows board.old) (B.beside board.old) (B.rests board.old))
        (staged pipe.now.view (Fly flight.now (Chosen version AHead)))
        (known (B.fits board.new) (B.shows board.new) (B.beside board.new) (B.rests board.new))
        (staged pipe.now.view (Fly flight.now (Chosen version (AMember result)))) }
    ensures some { 1 ≤ result.size }
    ensures most { result.size ≤ pipe.now.layout.shape.pool_max }
{
    let vip = vip_of(flight);
    let x = board.load(WordName::Head {
        vip,
        version: version.number(),
    });
    read_head(pipe.layout(), x)
}

// It loads the server that its key's hash picks.
fn load_member<B: Board>(
    board: &mut B,
    pipe: &PipeMachine,
    flight: &Flight,
    version: Version,
    head: &RowHead,
) -> u32
    requires flight { FitsFlight pipe.now.layout flight.now }
    requires version { version < pipe.now.layout.shape.versions }
    requires some { 1 ≤ head.now.size }
    requires most { head.now.size ≤ pipe.now.layout.shape.pool_max }
    requires board { IsFor (B.fits board.old) (B.beside board.old)
        (at_stage pipe.now (Fly flight.now (Chosen version (AMember head.now)))) }
    ensures goes { Goes pipe.now.layout (known (B.fits board.old) (B.shows board.old) (B.beside board.old) (B.rests board.old))
        (staged pipe.now.view (Fly flight.now (Chosen version (AMember head.now))))
        (known (B.fits board.new) (B.shows board.new) (B.beside board.new) (B.rests board.new))
        (staged pipe.now.view (Fly flight.now (Chosen version (ADown head.now.pool result)))) }
    ensures below { result < pipe.now.layout.servers }
{
    let vip = vip_of(flight);
    let index = select(head.size, flight.packet.key);
    let x = board.load(WordName::Member {
        vip,
        version: version.number(),
        index,
    });
    read_server(pipe.layout(), x)
}

// It loads whether the server is down, and has its verdict.
fn load_down<B: Board>(
    board: &mut B,
    pipe: &PipeMachine,
    flight: &Flight,
    version: Version,
    pool: u64,
    server: u32,
) -> Verdict
    requires server { server < pipe.now.layout.servers }
    requires board { IsFor (B.fits board.old) (B.beside board.old)
        (at_stage pipe.now (Fly flight.now (Chosen version (ADown pool server)))) }
    ensures goes { Goes pipe.now.layout (known (B.fits board.old) (B.shows board.old) (B.beside board.old) (B.rests board.old))
        (staged pipe.now.view (Fly flight.now (Chosen version (ADown pool server))))
        (known (B.fits board.new) (B.shows board.new) (B.beside board.new) (B.rests board.new))
        (staged pipe.now.view (Fly flight.now (Judged result (last_by flight.now.packet.kind (is_down result))))) }
{
    let _ = pipe;
    let _ = flight;
    let x = board.load(WordName::Down { server });
    verdict_by(read_flag(x), server, version, pool)
}

// Its verdict: the server that its key's hash picks, which may be down.
pub(crate) fn serve<B: Board>(
    board: &mut B,
    pipe: &PipeMachine,
    flight: &Flight,
    version: Version,
) -> Verdict
    requires flight { FitsFlight pipe.now.layout flight.now }
    requires version { version < pipe.now.layout.shape.versions }
    requires board { IsFor (B.fits board.old) (B.beside board.old) (at_stage pipe.now (Fly flight.now (Chosen version AHead))) }
    ensures { Goes pipe.now.layout (known (B.fits board.old) (B.shows board.old) (B.beside board.old) (B.rests board.old))
        (staged pipe.now.view (Fly flight.now (Chosen version AHead)))
        (known (B.fits board.new) (B.shows board.new) (B.beside board.new) (B.rests board.new))
        (staged pipe.now.view (Fly flight.now (Judged result (last_by flight.now.packet.kind (is_down result))))) }
{
    let head = load_head(board, pipe, flight, version);
    let server = load_member(board, pipe, flight, version, &head);
    load_down(board, pipe, flight, version, head.pool, server)
}

// Whether a packet with a version has something to report: an opener whose server isn't down, and an ending one.
pub(crate) fn reports(kind: Kind, verdict: &Verdict) -> bool
    ensures { last_by kind (is_down verdict.now) ≡ (if result then ARing else AnOut) }
{
    match kind {
        Kind::Opener => match verdict {
            Verdict::Down { .. } => false,
            _ => true,
        },
        Kind::Carry => false,
        Kind::Ending => true,
    }
}
