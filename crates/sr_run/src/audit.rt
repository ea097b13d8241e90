ghost use Rattle.std.specs.Prelude.{◌≡◌, ◌≤◌};
ghost use Rattle.std.specs.Option.{ForSome};
ghost use Rattle.sr_io.specs.Faults.{Counts};
ghost use Rattle.sr_io.specs.Sink.{Writes, put_of};
ghost use Rattle.sr_law.specs.Final.{packets_of};
ghost use Rattle.sr_script.specs.Fitting.{IsFitting};
ghost use Rattle.sr_script.specs.Script.{spelled};
ghost use Rattle.sr_script.specs.declared.refusal.ScriptRefusal.{ScriptRefusal as ARefusal};
ghost use Rattle.sr_text.specs.Log.{line_count, most_lines};
ghost use Rattle.sr_run.specs.Audit.{AnswersOfLog, AuditsLog, EndsLog, HasNumbers, Judges, RunsAudit, lawful_text};
ghost use Rattle.sr_run.specs.Outside.{TellsFaults, WritesNothing, outside};
ghost use Rattle.sr_run.specs.declared.status.Status.TheVariants as status;

use crate::Status;
use crate::numbering::{is_numbering, packets_of};
use crate::script_text::fetch_script;
use sr_audit::check;
use sr_base::Packet;
use sr_io::{Shelf, Sink, Source, WriteFault};
use sr_law::{CheckRefusal, Clause, Pools, Setup};
use sr_script::Script;
use sr_text::{LineText, Log, read_lines};
use std::alloc::Global;

/// Runs the command `audit`: fetches the script of this name, reads the log, and judges it.
pub(crate) fn run_audit<S: Source, F: Shelf, K: Sink>(
    alloc: Global,
    script: &str,
    source: &mut S,
    shelf: &mut F,
    sink: &mut K,
) -> Status
    ensures audit { RunsAudit script.now result (outside (S.known source.old) (F.known shelf.old) (K.known sink.old))
        (outside (S.known source.new) (F.known shelf.new) (K.known sink.new)) }
    ensures untouched { (refusal : ARefusal) → result ≡ status.Script refusal → source.new ≡ source.old }
    ensures faults { TellsFaults result (outside (S.known source.old) (F.known shelf.old) (K.known sink.old))
        (outside (S.known source.new) (F.known shelf.new) (K.known sink.new)) }
    ensures quiet { WritesNothing result (K.known sink.old) (K.known sink.new) }
{
    match fetch_script(alloc, script, shelf) {
        Ok(script) => audit_log(alloc, &script, source, sink),
        Err(status) => status,
    }
}

// Reads the log and judges it by the script.
fn audit_log<S: Source, K: Sink>(
    alloc: Global,
    script: &Script,
    source: &mut S,
    sink: &mut K,
) -> Status
    requires { IsFitting (spelled script.now) }
    ensures log { ForSome (S.known source.old).left (λ xs. AuditsLog result (spelled script.now) xs (S.known source.new) (K.known sink.old) (K.known sink.new)) }
    ensures ends { EndsLog result }
    ensures quiet { WritesNothing result (K.known sink.old) (K.known sink.new) }
    ensures source { Counts (result ≡ status.ReadFault) (S.known source.old).faults (S.known source.new).faults }
    ensures sink { Counts (result ≡ status.WriteFault) (K.known sink.old).faults (K.known sink.new).faults }
{
    match read_lines(alloc, source) {
        Ok(log) => answer(alloc, script, &log, sink),
        Err(why) => Status::from(why),
    }
}

// Judges a log, and says what it came to.
fn answer<K: Sink>(alloc: Global, script: &Script, log: &Log, sink: &mut K) -> Status
    requires fitting { IsFitting (spelled script.now) }
    requires few { line_count log.now.skips.items log.now.lines.items ≤ most_lines }
    ensures said { AnswersOfLog result (spelled script.now) log.now.skips.items log.now.lines.items (K.known sink.old) (K.known sink.new) }
    ensures sink { Counts (result ≡ status.WriteFault) (K.known sink.old).faults (K.known sink.new).faults }
{
    match judge(alloc, script, log) {
        Ok(()) => match print_lawful(log.lines.len(), sink) {
            Ok(()) => Status::Done,
            Err(_) => Status::WriteFault,
        },
        Err(status) => status,
    }
}

// Prints that so many lines are lawful, and flushes.
#[tactic(auto, unfolding(crate::specs::Audit::lawful_text))]
fn print_lawful<K: Sink>(count: usize, sink: &mut K) -> Result<(), WriteFault>
    ensures { Writes (put_of result) (K.known sink.old) (K.known sink.new) (lawful_text count) }
{
    let mut text = LineText::new();
    text.put_u64(count as u64);
    text.word(b"lawful ");
    sink.write(text.bytes()).ok()?;
    sink.flush().ok()
}

// Judges a log by a script: first the records' numbers, then the lines.
fn judge(alloc: Global, script: &Script, log: &Log) -> Result<(), Status>
    requires fitting { IsFitting (spelled script.now) }
    requires few { line_count log.now.skips.items log.now.lines.items ≤ most_lines }
    ensures { Judges result (spelled script.now) log.now.skips.items log.now.lines.items }
{
    let packets = packets_of(alloc, &log.lines)?;
    let numbered = is_numbering(alloc, &log.skips, &packets)?;
    if !numbered {
        return Err(Status::Breach {
            line: (1 + log.skips.len() + (log.lines.len() + 1)) as u64,
            clause: Clause::Final,
        });
    }
    judge_lines(alloc, script, log, packets)
}

// Judges the lines of a log whose records' numbers are right.
fn judge_lines(
    alloc: Global,
    script: &Script,
    log: &Log,
    packets: Vec<Packet>,
) -> Result<(), Status>
    requires fitting { IsFitting (spelled script.now) }
    requires few { line_count log.now.skips.items log.now.lines.items ≤ most_lines }
    requires packets { packets.items ≡ packets_of log.now.lines.items }
    requires numbers { HasNumbers log.now.skips.items log.now.lines.items }
    ensures { Judges result (spelled script.now) log.now.skips.items log.now.lines.items }
{
    let pools = Pools::new(alloc, &script.first, &script.changes)?;
    let setup = Setup {
        shape: script.shape,
        servers: script.servers.len() as u32,
        pools,
        packets,
    };
    match check(alloc, &setup, &log.lines) {
        Ok(()) => Ok(()),
        Err(CheckRefusal::Breach { line, clause }) => Err(Status::Breach {
            line: (1 + log.skips.len() + line) as u64,
            clause,
        }),
        Err(CheckRefusal::Memory) => Err(Status::Memory),
    }
}
