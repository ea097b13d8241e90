//! A packet between the load of its virtual address's word and its last tick.

ghost use Rattle.std.specs.Prelude.{◌<◌};
ghost use Rattle.sr_core.specs.Tracks.{FitsFlight};
ghost use Rattle.sr_machine.specs.Stages.{looking};
ghost use Rattle.sr_machine.specs.declared.leg.Last.TheVariants.{Out as AnOut};
ghost use Rattle.sr_machine.specs.declared.leg.Leg.TheVariants.{Chosen, Judged};
ghost use Rattle.sr_machine.specs.declared.leg.Load.TheVariants.{Head as AHead};
ghost use Rattle.sr_machine.specs.declared.stage.Stage.TheVariants.{Fly};
ghost use Rattle.sr_pipe.specs.Choices.{ChoiceFits, choice_leg};
ghost use Rattle.sr_pipe.specs.Known.{Goes, IsFor, at_stage, known, reported, staged};
ghost use Rattle.sr_pipe.specs.Places.{places_from};

use crate::choosing::choose;
use crate::looking::look;
use crate::reporting::report;
use crate::serving::{reports, serve};
use crate::{Choice, Decided};
use sr_base::Version;
use sr_core::PipeMachine;
use sr_law::Verdict;
use sr_machine::{Board, Flight};

// What becomes of it by its version.
fn settle_with<B: Board>(
    board: &mut B,
    pipe: &PipeMachine,
    flight: &Flight,
    version: Version,
) -> Decided
    requires flight { FitsFlight pipe.now.layout flight.now }
    requires version { version < pipe.now.layout.shape.versions }
    requires board { IsFor (B.fits board.old) (B.beside board.old) (at_stage pipe.now (Fly flight.now (Chosen version AHead))) }
    ensures { Goes pipe.now.layout (known (B.fits board.old) (B.shows board.old) (B.beside board.old) (B.rests board.old))
        (staged pipe.now.view (Fly flight.now (Chosen version AHead)))
        (known (B.fits board.new) (B.shows board.new) (B.beside board.new) (B.rests board.new))
        (reported pipe.now.view result.stored (Fly flight.now (Judged result.verdict AnOut))) }
{
    let verdict = serve(board, pipe, flight, version);
    if !reports(flight.packet.kind, &verdict) {
        return Decided {
            verdict,
            stored: false,
        };
    }
    report(board, pipe, flight, verdict)
}

// What becomes of it by its choice.
fn settle<B: Board>(board: &mut B, pipe: &PipeMachine, flight: &Flight, choice: Choice) -> Decided
    requires flight { FitsFlight pipe.now.layout flight.now }
    requires choice { ChoiceFits pipe.now.layout choice }
    requires board { IsFor (B.fits board.old) (B.beside board.old) (at_stage pipe.now (Fly flight.now (choice_leg choice))) }
    ensures { Goes pipe.now.layout (known (B.fits board.old) (B.shows board.old) (B.beside board.old) (B.rests board.old))
        (staged pipe.now.view (Fly flight.now (choice_leg choice)))
        (known (B.fits board.new) (B.shows board.new) (B.beside board.new) (B.rests board.new))
        (reported pipe.now.view result.stored (Fly flight.now (Judged result.verdict AnOut))) }
{
    match choice {
        Choice::Held { by } => report(board, pipe, flight, Verdict::Held(by)),
        Choice::Goes { version } => settle_with(board, pipe, flight, version),
    }
}

// It looks, chooses, and has its verdict.
pub(crate) fn decide<B: Board>(board: &mut B, pipe: &PipeMachine, flight: &Flight) -> Decided
    requires flight { FitsFlight pipe.now.layout flight.now }
    requires board { IsFor (B.fits board.old) (B.beside board.old)
        (at_stage pipe.now (Fly flight.now (looking pipe.now.layout flight.now (places_from pipe.now.layout flight.now.packet.key 0)))) }
    ensures { Goes pipe.now.layout (known (B.fits board.old) (B.shows board.old) (B.beside board.old) (B.rests board.old))
        (staged pipe.now.view (Fly flight.now (looking pipe.now.layout flight.now (places_from pipe.now.layout flight.now.packet.key 0))))
        (known (B.fits board.new) (B.shows board.new) (B.beside board.new) (B.rests board.new))
        (reported pipe.now.view result.stored (Fly flight.now (Judged result.verdict AnOut))) }
{
    let found = look(board, pipe, flight);
    let choice = choose(board, pipe, flight, found);
    settle(board, pipe, flight, choice)
}
