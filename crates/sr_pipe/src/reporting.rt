//! A packet with a verdict reports to the controller, if it has to and its ring has room.

ghost use Rattle.std.specs.Prelude.{◌≡◌, ℕ, ◌%◌, ◌<◌, List, true, false, if◌then◌else◌};
ghost use Rattle.sr_base.specs.WordName.{HasWord};
ghost use Rattle.sr_base.specs.declared.word_name.WordName.TheVariants.{Ring as ARingWord};
ghost use Rattle.sr_machine.specs.Reads.{filter_bit};
ghost use Rattle.sr_machine.specs.Stages.{is_recorded, key_bits, last_at, marking, verdict_at};
ghost use Rattle.sr_machine.specs.declared.leg.Last.TheVariants.{Mark, Out as AnOut, Push, Ring as ARing};
ghost use Rattle.sr_machine.specs.declared.leg.Leg.TheVariants.{Judged};
ghost use Rattle.sr_machine.specs.declared.stage.Stage.TheVariants.{Fly};
ghost use Rattle.sr_pipe.specs.Known.{Goes, IsFor, at_stage, known, reported, staged};

use crate::Decided;
use sr_base::{WordName, filter_bits_have_words, layout_ranges};
use sr_core::PipeMachine;
use sr_core::course::{is_opener, is_recorded, key_bits};
use sr_core::stepping::report_by;
use sr_law::Verdict;
use sr_machine::{Board, Flight};

// The cell of the ring for the pipe's next report.
fn next_cell(pipe: &PipeMachine) -> WordName
    ensures value { result ≡ ARingWord pipe.now.view.number (pipe.now.view.pushed % pipe.now.layout.shape.ring) }
    ensures named { HasWord pipe.now.layout result }
{
    let layout = pipe.layout();
    layout_ranges(layout);
    WordName::Ring {
        pipe: pipe.number(),
        cell: (pipe.pushed() % layout.shape().ring as u64) as u32,
    }
}

// It sets one place of the transit filter.
fn mark_bit<B: Board>(
    board: &mut B,
    pipe: &PipeMachine,
    flight: &Flight,
    verdict: &Verdict,
    bit: u32,
)
    requires bit { bit < pipe.now.layout.shape.filter_bits }
    requires board { (rest : List ℕ) × IsFor (B.fits board.old) (B.beside board.old)
        (at_stage pipe.now (Fly flight.now (Judged verdict.now (Mark bit rest)))) }
    ensures { (rest : List ℕ) → Goes pipe.now.layout (known (B.fits board.old) (B.shows board.old) (B.beside board.old) (B.rests board.old))
        (staged pipe.now.view (Fly flight.now (Judged verdict.now (Mark bit rest))))
        (known (B.fits board.new) (B.shows board.new) (B.beside board.new) (B.rests board.new))
        (staged pipe.now.view (Fly flight.now (Judged verdict.now (marking rest)))) }
{
    filter_bits_have_words(pipe.layout());
    let _ = flight;
    let _ = verdict;
    let bits = bit_of(bit);
    board.or(WordName::Filter { index: bit / 64 }, bits);
}

// The bit of a place in its word of the filter.
fn bit_of(bit: u32) -> u64
    ensures { result ≡ filter_bit bit }
{
    1 << (bit % 64)
}

// It sets its places of the transit filter.
fn mark<B: Board>(board: &mut B, pipe: &PipeMachine, flight: &Flight, verdict: &Verdict)
    requires { IsFor (B.fits board.old) (B.beside board.old)
        (at_stage pipe.now (Fly flight.now (Judged verdict.now (marking (key_bits pipe.now.layout flight.now.packet.key))))) }
    ensures { Goes pipe.now.layout (known (B.fits board.old) (B.shows board.old) (B.beside board.old) (B.rests board.old))
        (staged pipe.now.view (Fly flight.now (Judged verdict.now (marking (key_bits pipe.now.layout flight.now.packet.key)))))
        (known (B.fits board.new) (B.shows board.new) (B.beside board.new) (B.rests board.new))
        (staged pipe.now.view (Fly flight.now (Judged verdict.now Push))) }
{
    let bits = key_bits(pipe.layout(), flight.packet.key);
    for i in 0..3 {
        mark_bit(board, pipe, flight, verdict, bits[i]);
    }
}

// An opener that its virtual address records is recorded.
fn record<B: Board>(board: &mut B, pipe: &PipeMachine, flight: &Flight, verdict: &Verdict)
    requires { IsFor (B.fits board.old) (B.beside board.old)
        (at_stage pipe.now (Fly flight.now (Judged verdict.now (if is_recorded flight.now verdict.now
        then marking (key_bits pipe.now.layout flight.now.packet.key) else Push)))) }
    ensures { Goes pipe.now.layout (known (B.fits board.old) (B.shows board.old) (B.beside board.old) (B.rests board.old))
        (staged pipe.now.view (Fly flight.now (Judged verdict.now (if is_recorded flight.now verdict.now
        then marking (key_bits pipe.now.layout flight.now.packet.key) else Push))))
        (known (B.fits board.new) (B.shows board.new) (B.beside board.new) (B.rests board.new))
        (staged pipe.now.view (Fly flight.now (Judged verdict.now Push))) }
{
    if is_recorded(flight, verdict) {
        mark(board, pipe, flight, verdict);
    }
}

// It stores its report.
fn push<B: Board>(
    board: &mut B,
    pipe: &PipeMachine,
    flight: &Flight,
    verdict: &Verdict,
    cell: WordName,
)
    requires cell { cell ≡ ARingWord pipe.now.view.number (pipe.now.view.pushed % pipe.now.layout.shape.ring) }
    requires named { HasWord pipe.now.layout cell }
    requires board { IsFor (B.fits board.old) (B.beside board.old)
        (at_stage pipe.now (Fly flight.now (Judged verdict.now Push))) }
    ensures { Goes pipe.now.layout (known (B.fits board.old) (B.shows board.old) (B.beside board.old) (B.rests board.old))
        (staged pipe.now.view (Fly flight.now (Judged verdict.now Push)))
        (known (B.fits board.new) (B.shows board.new) (B.beside board.new) (B.rests board.new))
        (reported pipe.now.view true (Fly flight.now (Judged verdict.now AnOut))) }
{
    let _ = pipe;
    let report = report_by(flight.packet.key, flight.packet.kind, verdict);
    board.store(cell, report.pack());
}

// It looks at the cell for its report, and says whether it is empty.
fn load_cell<B: Board>(
    board: &mut B,
    pipe: &PipeMachine,
    flight: &Flight,
    verdict: &Verdict,
    cell: WordName,
) -> bool
    requires cell { cell ≡ ARingWord pipe.now.view.number (pipe.now.view.pushed % pipe.now.layout.shape.ring) }
    requires named { HasWord pipe.now.layout cell }
    requires board { IsFor (B.fits board.old) (B.beside board.old)
        (at_stage pipe.now (Fly flight.now (Judged verdict.now ARing))) }
    ensures { Goes pipe.now.layout (known (B.fits board.old) (B.shows board.old) (B.beside board.old) (B.rests board.old))
        (staged pipe.now.view (Fly flight.now (Judged verdict.now ARing)))
        (known (B.fits board.new) (B.shows board.new) (B.beside board.new) (B.rests board.new))
        (staged pipe.now.view (Fly flight.now (Judged (verdict_at flight.now verdict.now result)
        (last_at pipe.now.layout flight.now verdict.now result)))) }
{
    let _ = pipe;
    let _ = flight;
    let _ = verdict;
    let x = board.load(cell);
    x == 0
}

// It reports, if its cell is empty; an opener that finds it full is sent nowhere.
pub(crate) fn report<B: Board>(
    board: &mut B,
    pipe: &PipeMachine,
    flight: &Flight,
    verdict: Verdict,
) -> Decided
    requires { IsFor (B.fits board.old) (B.beside board.old)
        (at_stage pipe.now (Fly flight.now (Judged verdict ARing))) }
    ensures { Goes pipe.now.layout (known (B.fits board.old) (B.shows board.old) (B.beside board.old) (B.rests board.old))
        (staged pipe.now.view (Fly flight.now (Judged verdict ARing)))
        (known (B.fits board.new) (B.shows board.new) (B.beside board.new) (B.rests board.new))
        (reported pipe.now.view result.stored (Fly flight.now (Judged result.verdict AnOut))) }
{
    let cell = next_cell(pipe);
    if !load_cell(board, pipe, flight, &verdict, cell) {
        return full(flight, verdict);
    }
    record(board, pipe, flight, &verdict);
    push(board, pipe, flight, &verdict, cell);
    Decided {
        verdict,
        stored: true,
    }
}

// What becomes of a packet whose cell is full.
fn full(flight: &Flight, verdict: Verdict) -> Decided
    ensures { result ≡ record { verdict = verdict_at flight.now verdict false; stored = false } }
{
    if is_opener(flight.packet.kind) {
        Decided {
            verdict: Verdict::Full,
            stored: false,
        }
    } else {
        Decided {
            verdict,
            stored: false,
        }
    }
}
