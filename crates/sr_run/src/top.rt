ghost use Rattle.std.specs.Prelude.{◌≡◌, ◌⊎◌, List, ℕ, Some, None, map, string_bytes};
ghost use Rattle.sr_run.specs.Audit.{RunsAudit};
ghost use Rattle.sr_run.specs.Command.{Command as ACommand, One, Make, Audit, Replay, Steps, Demo, command_of};
ghost use Rattle.sr_run.specs.Complete.{Completes};
ghost use Rattle.sr_run.specs.Demo.{RunsDemo};
ghost use Rattle.sr_run.specs.Make.{RunsMake};
ghost use Rattle.sr_run.specs.One.{RunsOne};
ghost use Rattle.sr_run.specs.Outside.{TellsFaults, WritesNothing, outside};
ghost use Rattle.sr_run.specs.Played.{RunsPlay};
ghost use Rattle.sr_run.specs.declared.status.Status.TheVariants.{Usage, Script, Memory};
ghost use Rattle.sr_run.specs.declared.way.Way.TheVariants.{Picked as ByPicks, OnThreads as ByOrder};
ghost use Rattle.sr_script.specs.declared.refusal.ScriptRefusal.{ScriptRefusal as ARefusal};

use crate::Status;
use crate::audit::run_audit;
use crate::command::{Command, read_command};
use crate::demo::run_demo;
use crate::make_capture::run_make;
use crate::one::run_one;
use crate::played::run_played;
use crate::way::Way;
use sr_io::{Gate, Shelf, Sink, Source};
use std::alloc::Global;
use std::thread::Threads;

/// All that the program does. `words` are the words after the program's name; the source is what a capture or a log is read from, the shelf
/// has the scripts, the sink takes what is printed. `replay` and `demo` run in threads of `rt`, in which each packet passes the gate once its
/// note is up. It waits for nobody.
pub fn run<R: Threads + Sync, S: Source, F: Shelf, K: Sink, G: Gate + Sync>(
    rt: &R,
    alloc: Global,
    words: &[String],
    source: &mut S,
    shelf: &mut F,
    sink: &mut K,
    gate: &G,
) -> Status
    // The words are no command. Then nothing was read.
    ensures usage { result ≡ Usage → command_of (map string_bytes words.now) ≡ None }
    ensures no_command { command_of (map string_bytes words.now) ≡ None
        → ((result ≡ Usage) ⊎ (result ≡ Memory)) × (source.new ≡ source.old) × (shelf.new ≡ shelf.old) }

    // What each command does.
    ensures one { (vip : ℕ × ℕ) (servers : ℕ) → command_of (map string_bytes words.now) ≡ Some (One vip servers)
        → RunsOne vip servers result (outside (S.known source.old) (F.known shelf.old) (K.known sink.old))
        (outside (S.known source.new) (F.known shelf.new) (K.known sink.new))
        × (shelf.new ≡ shelf.old) }
    ensures make { (number packets : ℕ) → command_of (map string_bytes words.now) ≡ Some (Make number packets)
        → RunsMake number packets result (K.known sink.old) (K.known sink.new) × (source.new ≡ source.old) × (shelf.new ≡ shelf.old) }
    ensures audit { (script : List ℕ) → command_of (map string_bytes words.now) ≡ Some (Audit script)
        → RunsAudit script result (outside (S.known source.old) (F.known shelf.old) (K.known sink.old))
        (outside (S.known source.new) (F.known shelf.new) (K.known sink.new))
        × ((refusal : ARefusal) → result ≡ Script refusal → source.new ≡ source.old) }
    ensures replay { (script : List ℕ) → command_of (map string_bytes words.now) ≡ Some (Replay script)
        → RunsPlay script ByOrder result (outside (S.known source.old) (F.known shelf.old) (K.known sink.old))
        (outside (S.known source.new) (F.known shelf.new) (K.known sink.new))
        × ((refusal : ARefusal) → result ≡ Script refusal → source.new ≡ source.old) }
    ensures steps { (script : List ℕ) (seed : ℕ) → command_of (map string_bytes words.now) ≡ Some (Steps script seed)
        → RunsPlay script (ByPicks seed) result (outside (S.known source.old) (F.known shelf.old) (K.known sink.old))
        (outside (S.known source.new) (F.known shelf.new) (K.known sink.new))
        × ((refusal : ARefusal) → result ≡ Script refusal → source.new ≡ source.old) }
    ensures demo { (number : ℕ) → command_of (map string_bytes words.now) ≡ Some (Demo number)
        → RunsDemo number result (K.known sink.old) (K.known sink.new) × (source.new ≡ source.old) × (shelf.new ≡ shelf.old) }

    // What is valid is done, unless a device fails, there is no memory, or an update waits for a key.
    ensures complete { (command : ACommand) → command_of (map string_bytes words.now) ≡ Some command
        → Completes command result (outside (S.known source.old) (F.known shelf.old) (K.known sink.old))
        (outside (S.known source.new) (F.known shelf.new) (K.known sink.new)) }

    // What holds of every command, source, shelf and sink.
    ensures faults { TellsFaults result (outside (S.known source.old) (F.known shelf.old) (K.known sink.old))
        (outside (S.known source.new) (F.known shelf.new) (K.known sink.new)) }
    ensures quiet { WritesNothing result (K.known sink.old) (K.known sink.new) }
{
    match read_command(alloc, words) {
        Err(_) => Status::Memory,
        Ok(None) => Status::Usage,
        Ok(Some(Command::One { vip, servers })) => run_one(alloc, vip, servers, source, sink),
        Ok(Some(Command::Make { number, packets })) => run_make(number, packets, sink),
        Ok(Some(Command::Demo { number })) => run_demo(rt, alloc, number, sink, gate),
        Ok(Some(Command::Audit { script })) => run_audit(alloc, script, source, shelf, sink),
        Ok(Some(Command::Replay { script })) => run_played(
            rt,
            alloc,
            script,
            Way::OnThreads,
            source,
            shelf,
            sink,
            gate,
        ),
        Ok(Some(Command::Steps { script, seed })) => run_played(
            rt,
            alloc,
            script,
            Way::Picked { seed },
            source,
            shelf,
            sink,
            gate,
        ),
    }
}
