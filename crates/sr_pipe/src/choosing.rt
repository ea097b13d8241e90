//! What a packet does with what it found: it is held, or goes by a version.

ghost use Rattle.std.specs.Prelude.{ℕ, ◌<◌, List, []};
ghost use Rattle.sr_base.specs.WordName.{HasPlace};
ghost use Rattle.sr_core.specs.Tracks.{FitsFlight};
ghost use Rattle.sr_machine.specs.Stages.{filtered, filtering, key_bits, missed};
ghost use Rattle.sr_machine.specs.declared.leg.Leg.TheVariants.{Filter, Hit};
ghost use Rattle.sr_machine.specs.declared.stage.Stage.TheVariants.{Fly};
ghost use Rattle.sr_pipe.specs.Choices.{ChoiceFits, FoundFits, choice_leg, found_leg};
ghost use Rattle.sr_pipe.specs.Known.{Goes, IsFor, at_stage, known, staged};

use crate::choice::held_or;
use crate::{Choice, Found};
use sr_base::{Phase, Place, Version, WordName, filter_bits_have_words};
use sr_core::PipeMachine;
use sr_core::course::key_bits;
use sr_core::reads::has_bit;
use sr_law::HeldBy;
use sr_machine::{Board, Flight};

// It looks at its places of the transit filter, until one is clear.
fn look_in_filter<B: Board>(board: &mut B, pipe: &PipeMachine, flight: &Flight) -> Choice
    requires flight { FitsFlight pipe.now.layout flight.now }
    requires board { IsFor (B.fits board.old) (B.beside board.old)
        (at_stage pipe.now (Fly flight.now (filtering flight.now (key_bits pipe.now.layout flight.now.packet.key)))) }
    ensures goes { Goes pipe.now.layout (known (B.fits board.old) (B.shows board.old) (B.beside board.old) (B.rests board.old))
        (staged pipe.now.view (Fly flight.now (filtering flight.now (key_bits pipe.now.layout flight.now.packet.key))))
        (known (B.fits board.new) (B.shows board.new) (B.beside board.new) (B.rests board.new))
        (staged pipe.now.view (Fly flight.now (choice_leg result))) }
    ensures fits { ChoiceFits pipe.now.layout result }
{
    let layout = pipe.layout();
    let bits = key_bits(layout, flight.packet.key);
    for i in 0..3 {
        if !look_at_bit(board, pipe, flight, bits[i]) {
            return Choice::Goes {
                version: flight.vip.next,
            };
        }
    }
    held_or(layout, flight, HeldBy::Transit, flight.vip.cur)
}

// It looks at one place of the transit filter, and says whether it is set.
fn look_at_bit<B: Board>(board: &mut B, pipe: &PipeMachine, flight: &Flight, bit: u32) -> bool
    requires bit { bit < pipe.now.layout.shape.filter_bits }
    requires board { (rest : List ℕ) × IsFor (B.fits board.old) (B.beside board.old)
        (at_stage pipe.now (Fly flight.now (Filter bit rest))) }
    ensures goes { (rest : List ℕ) → Goes pipe.now.layout
        (known (B.fits board.old) (B.shows board.old) (B.beside board.old) (B.rests board.old))
        (staged pipe.now.view (Fly flight.now (Filter bit rest)))
        (known (B.fits board.new) (B.shows board.new) (B.beside board.new) (B.rests board.new))
        (staged pipe.now.view (Fly flight.now (filtered flight.now rest result))) }
{
    filter_bits_have_words(pipe.layout());
    let x = board.load(WordName::Filter { index: bit / 64 });
    has_bit(bit, x)
}

// It found no entry: the phase decides.
fn choose_unmatched<B: Board>(board: &mut B, pipe: &PipeMachine, flight: &Flight) -> Choice
    requires flight { FitsFlight pipe.now.layout flight.now }
    requires board { IsFor (B.fits board.old) (B.beside board.old)
        (at_stage pipe.now (Fly flight.now (missed pipe.now.layout flight.now))) }
    ensures goes { Goes pipe.now.layout (known (B.fits board.old) (B.shows board.old) (B.beside board.old) (B.rests board.old))
        (staged pipe.now.view (Fly flight.now (missed pipe.now.layout flight.now)))
        (known (B.fits board.new) (B.shows board.new) (B.beside board.new) (B.rests board.new))
        (staged pipe.now.view (Fly flight.now (choice_leg result))) }
    ensures fits { ChoiceFits pipe.now.layout result }
{
    match flight.vip.phase {
        Phase::Steady => Choice::Goes {
            version: flight.vip.cur,
        },
        Phase::Recording => Choice::Goes {
            version: flight.vip.cur,
        },
        Phase::Holding => held_or(pipe.layout(), flight, HeldBy::Hold, flight.vip.cur),
        Phase::Transit => look_in_filter(board, pipe, flight),
    }
}

// It found an entry that is live: it tells so, and goes by its version; an opener is held.
fn choose_matched<B: Board>(
    board: &mut B,
    pipe: &PipeMachine,
    flight: &Flight,
    place: Place,
    version: Version,
) -> Choice
    requires place { HasPlace pipe.now.layout.shape place }
    requires version { version < pipe.now.layout.shape.versions }
    requires board { IsFor (B.fits board.old) (B.beside board.old) (at_stage pipe.now (Fly flight.now (Hit place version))) }
    ensures goes { Goes pipe.now.layout (known (B.fits board.old) (B.shows board.old) (B.beside board.old) (B.rests board.old))
        (staged pipe.now.view (Fly flight.now (Hit place version)))
        (known (B.fits board.new) (B.shows board.new) (B.beside board.new) (B.rests board.new))
        (staged pipe.now.view (Fly flight.now (choice_leg result))) }
    ensures fits { ChoiceFits pipe.now.layout result }
{
    board.store(WordName::Hit { place }, 1);
    held_or(pipe.layout(), flight, HeldBy::Clash, version)
}

// What becomes of it by what it found.
pub(crate) fn choose<B: Board>(
    board: &mut B,
    pipe: &PipeMachine,
    flight: &Flight,
    found: Found,
) -> Choice
    requires flight { FitsFlight pipe.now.layout flight.now }
    requires found { FoundFits pipe.now.layout found }
    requires board { IsFor (B.fits board.old) (B.beside board.old)
        (at_stage pipe.now (Fly flight.now (found_leg pipe.now.layout flight.now [] found))) }
    ensures goes { Goes pipe.now.layout (known (B.fits board.old) (B.shows board.old) (B.beside board.old) (B.rests board.old))
        (staged pipe.now.view (Fly flight.now (found_leg pipe.now.layout flight.now [] found)))
        (known (B.fits board.new) (B.shows board.new) (B.beside board.new) (B.rests board.new))
        (staged pipe.now.view (Fly flight.now (choice_leg result))) }
    ensures fits { ChoiceFits pipe.now.layout result }
{
    match found {
        Found::Nothing => choose_unmatched(board, pipe, flight),
        Found::Reserved => Choice::Held { by: HeldBy::Clash },
        Found::Live { place, version } => choose_matched(board, pipe, flight, place, version),
    }
}
