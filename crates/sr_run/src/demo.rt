ghost use Rattle.std.specs.Prelude.{◌≡◌};
ghost use Rattle.sr_io.specs.Faults.{Counts};
ghost use Rattle.sr_io.specs.Sink.{Writes};
ghost use Rattle.sr_run.specs.Demo.{RunsDemo, summary_text};
ghost use Rattle.sr_run.specs.Outside.{WritesNothing};
ghost use Rattle.sr_run.specs.declared.status.Status.TheVariants as status;

use crate::Status;
use crate::played::status_after;
use sr_demo::{Demonstration, demonstrate};
use sr_io::{Gate, Put, Sink};
use sr_text::LineText;
use std::alloc::Global;
use std::thread::Threads;

// How many packets a demonstration has.
const PACKETS: u32 = 200_000;

/// Runs the command `demo`: makes a capture from the number, replays it in threads, and then prints what the lines come to, once they were
/// judged. It reads nothing.
pub(crate) fn run_demo<R: Threads + Sync, K: Sink, G: Gate + Sync>(
    rt: &R,
    alloc: Global,
    number: u64,
    sink: &mut K,
    gate: &G,
) -> Status
    ensures demo { RunsDemo number result (K.known sink.old) (K.known sink.new) }
    ensures quiet { WritesNothing result (K.known sink.old) (K.known sink.new) }
    ensures sink { Counts (result ≡ status.WriteFault) (K.known sink.old).faults (K.known sink.new).faults }
{
    match demonstrate(rt, alloc, number, PACKETS, gate) {
        Err(_) => Status::Memory,
        Ok(shown) => match print_summary(&shown, sink) {
            Put::Failed => Status::WriteFault,
            Put::All => status_after(None, shown.awaited),
        },
    }
}

// Prints the four lines in one write, and flushes.
#[tactic(auto, unfolding(crate::specs::Demo::summary_text))]
fn print_summary<K: Sink>(shown: &Demonstration, sink: &mut K) -> Put
    ensures { Writes result (K.known sink.old) (K.known sink.new) (summary_text shown.now.packets shown.now.opened shown.now.switched) }
{
    let mut text = LineText::new();
    text.word(b"\nlawful yes");
    text.put_u64(shown.switched as u64);
    text.word(b"\nswitched ");
    text.put_u64(shown.opened as u64);
    text.word(b"\nopened ");
    text.put_u64(shown.packets as u64);
    text.word(b"packets ");
    match sink.write(text.bytes()) {
        Put::All => sink.flush(),
        Put::Failed => Put::Failed,
    }
}
