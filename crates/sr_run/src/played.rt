ghost use Rattle.std.specs.Prelude.{◌≡◌, IfOk, length};
ghost use Rattle.std.specs.Option.{ForSome};
ghost use Rattle.sr_io.specs.Faults.{Counts};
ghost use Rattle.sr_script.specs.Fitting.{IsFitting};
ghost use Rattle.sr_script.specs.Script.{spelled};
ghost use Rattle.sr_script.specs.declared.refusal.ScriptRefusal.{ScriptRefusal as ARefusal};
ghost use Rattle.sr_run.specs.Outside.{TellsFaults, WritesNothing, outside};
ghost use Rattle.sr_run.specs.Played.{EndsCapture, MadeBy, PlaysCapture, PlaysCaptured, RunsPlay, status_after};
ghost use Rattle.sr_run.specs.declared.status.Status.TheVariants as status;

use crate::Status;
use crate::print_lines::print_lines;
use crate::script_text::fetch_script;
use crate::way::Way;
use sr_base::Key;
use sr_capture::{CaptureRefusal, Captured, read_capture};
use sr_io::{Gate, Shelf, Sink, Source};
use sr_rounds::Timed;
use sr_script::Script;
use sr_scripted::{Played, play_script};
use sr_threads::replay_on_threads;
use std::alloc::{AllocError, Global};
use std::thread::Threads;

/// Fetches the script of this name, reads the whole capture, plays it by the script in this way, and then prints.
pub(crate) fn run_played<R: Threads + Sync, S: Source, F: Shelf, K: Sink, G: Gate + Sync>(
    rt: &R,
    alloc: Global,
    script: &str,
    way: Way,
    source: &mut S,
    shelf: &mut F,
    sink: &mut K,
    gate: &G,
) -> Status
    ensures plays { RunsPlay script.now way result (outside (S.known source.old) (F.known shelf.old) (K.known sink.old))
        (outside (S.known source.new) (F.known shelf.new) (K.known sink.new)) }
    ensures untouched { (refusal : ARefusal) → result ≡ status.Script refusal → source.new ≡ source.old }
    ensures faults { TellsFaults result (outside (S.known source.old) (F.known shelf.old) (K.known sink.old))
        (outside (S.known source.new) (F.known shelf.new) (K.known sink.new)) }
    ensures quiet { WritesNothing result (K.known sink.old) (K.known sink.new) }
{
    match fetch_script(alloc, script, shelf) {
        Ok(script) => play_capture(rt, alloc, script, way, source, sink, gate),
        Err(status) => status,
    }
}

// Reads the capture and plays it by the script.
fn play_capture<R: Threads + Sync, S: Source, K: Sink, G: Gate + Sync>(
    rt: &R,
    alloc: Global,
    script: Script,
    way: Way,
    source: &mut S,
    sink: &mut K,
    gate: &G,
) -> Status
    requires { IsFitting (spelled script) }
    ensures log { ForSome (S.known source.old).left (λ xs. PlaysCapture result (spelled script) way xs (S.known source.new) (K.known sink.old) (K.known sink.new)) }
    ensures ends { EndsCapture result }
    ensures quiet { WritesNothing result (K.known sink.old) (K.known sink.new) }
    ensures source { Counts (result ≡ status.ReadFault) (S.known source.old).faults (S.known source.new).faults }
    ensures sink { Counts (result ≡ status.WriteFault) (K.known sink.old).faults (K.known sink.new).faults }
{
    match read_capture(alloc, &script.vips, source) {
        Ok(captured) => play_captured(rt, alloc, script, way, &captured, sink, gate),
        Err(why) => Status::from(why),
    }
}

// Plays what was kept of a capture by the script, and prints the log.
fn play_captured<R: Threads + Sync, K: Sink, G: Gate + Sync>(
    rt: &R,
    alloc: Global,
    script: Script,
    way: Way,
    captured: &Captured<Timed>,
    sink: &mut K,
    gate: &G,
) -> Status
    requires { IsFitting (spelled script) }
    ensures { PlaysCaptured result (spelled script) way captured.now (K.known sink.old) (K.known sink.new) }
{
    match play_by(rt, alloc, script, &captured.packets, way, gate) {
        Err(_) => Status::Memory,
        Ok(played) => match print_lines(&captured.skips, &played.lines, sink) {
            Err(_) => Status::WriteFault,
            Ok(()) => status_after(captured.ending, played.awaited),
        },
    }
}

// Plays packets by the script in this way.
fn play_by<R: Threads + Sync, G: Gate + Sync>(
    rt: &R,
    alloc: Global,
    script: Script,
    packets: &[Timed],
    way: Way,
    gate: &G,
) -> Result<Played, AllocError>
    requires { IsFitting (spelled script) }
    ensures { IfOk result (λ played. MadeBy way (spelled script) packets.now played.lines.items played.awaited) }
{
    match way {
        Way::Picked { seed } => play_script(alloc, script, packets, seed),
        Way::OnThreads => replay_on_threads(rt, alloc, script, packets, gate),
    }
}

/// How a run ends once its log is printed: a refusal of the capture comes before a key that an update waits for.
pub(crate) fn status_after(refusal: Option<CaptureRefusal>, awaited: Option<Key>) -> Status
    ensures { result ≡ status_after refusal awaited }
{
    match refusal {
        Some(why) => Status::Capture(why),
        None => match awaited {
            Some(key) => Status::Waiting(key),
            None => Status::Done,
        },
    }
}
