ghost use Rattle.std.specs.Prelude.{◌≡◌, ℕ, ◌≤◌, List, [], Some, Err};
ghost use Rattle.std.specs.Option.{ForSome};
ghost use Rattle.sr_frame.specs.declared.skip.Skip.{Skip};
ghost use Rattle.sr_io.specs.Faults.{Counts};
ghost use Rattle.sr_io.specs.Window.{Pending};
ghost use Rattle.sr_law.specs.declared.line.Line.{Line};
ghost use Rattle.sr_text.specs.Adding.{Bodies, Finds, Grows, Heads, IsBody, IsHead, Reached};
ghost use Rattle.sr_text.specs.LineText.{log_text};
ghost use Rattle.sr_text.specs.Log.{IsLog, IsRead, Reads, ReadsBack, line_count, most_lines};
ghost use Rattle.sr_text.specs.declared.log_refusal.LogRefusal.TheVariants.{ReadFault};

use crate::adding::add_line;
use crate::log_window::LogWindow;
use crate::word::after_word;
use crate::{Log, LogRefusal};
use sr_io::Source;
use std::alloc::Global;

/// How many lines a log may have at most, its head included.
const MOST_LINES: u64 = 33_554_432;

/// Reads a log to its end: at most 33,554,432 lines, the head and those of skipped records too. A line is bad where it isn't one of the
/// grammar, as one of more than 200 bytes never is, or where it has no line feed; in an empty source line 1 is.
pub fn read_lines<S: Source>(alloc: Global, source: &mut S) -> Result<Log, LogRefusal>
    // What is read is a text of the grammar that prints back to the same bytes; or its first bad line is named.
    ensures text { ForSome (S.known source.old).left (λ xs. Reads (λ log. log.skips.items) (λ log. log.lines.items) result xs (S.known source.new).left) }
    // What was printed is read back, whatever it is, up to the limit.
    ensures printed { (skips : List (ℕ × Skip)) (lines : List Line) → IsLog skips lines → line_count skips lines ≤ most_lines → (S.known source.old).left ≡ Some (log_text skips lines) → ReadsBack (λ log. log.skips.items) (λ log. log.lines.items) result skips lines }
    // What holds whatever the source tells.
    ensures read { IsRead (λ log. log.skips.items) (λ log. log.lines.items) result }
    ensures faults { Counts (result ≡ Err ReadFault) (S.known source.old).faults (S.known source.new).faults }
{
    read_log(alloc, source)
}

// Reads a log.
fn read_log<S: Source>(alloc: Global, source: &mut S) -> Result<Log, LogRefusal>
    ensures text { ForSome (S.known source.old).left (λ xs. Reads (λ log. log.skips.items) (λ log. log.lines.items) result xs (S.known source.new).left) }
    ensures read { IsRead (λ log. log.skips.items) (λ log. log.lines.items) result }
    ensures faults { Counts (result ≡ Err ReadFault) (S.known source.old).faults (S.known source.new).faults }
{
    let mut window = LogWindow::new(alloc)?;
    let mut log = Log {
        skips: Vec::new(alloc),
        lines: Vec::new(alloc),
    };
    read_head(source, &mut window)?;
    read_body(source, &mut window, &mut log)?;
    Ok(log)
}

// Reads the first line.
fn read_head<S: Source>(source: &mut S, window: &mut LogWindow) -> Result<(), LogRefusal>
    ensures bytes { (xs : List ℕ) → Pending window.old (S.known source.old).left xs → Heads result window.new (S.known source.new).left xs }
    ensures head { IsHead result }
    ensures faults { Counts (result ≡ Err ReadFault) (S.known source.old).faults (S.known source.new).faults }
{
    window.fill(source)?;
    match after_word(b"silkroad 1\n", window.unread()) {
        Some(_) => {}
        None => return Err(LogRefusal::BadLine { number: 1 }),
    }
    window.pass(11);
    Ok(())
}

// Reads all lines behind the first.
fn read_body<S: Source>(
    source: &mut S,
    window: &mut LogWindow,
    log: &mut Log,
) -> Result<(), LogRefusal>
    requires skips { log.old.skips.items ≡ [] }
    requires lines { log.old.lines.items ≡ [] }
    ensures bytes { (xs : List ℕ) → Reached [] [] window.old (S.known source.old).left xs → Bodies result log.new.skips.items log.new.lines.items (S.known source.new).left xs }
    ensures body { IsBody result log.new.skips.items log.new.lines.items }
    ensures faults { Counts (result ≡ Err ReadFault) (S.known source.old).faults (S.known source.new).faults }
{
    for number in 2..MOST_LINES + 1 {
        let more = read_line(source, window, log, number)?;
        if !more {
            return Ok(());
        }
    }
    window.fill(source)?;
    if window.unread().is_empty() {
        Ok(())
    } else {
        Err(LogRefusal::BadLine {
            number: MOST_LINES + 1,
        })
    }
}

// Reads the next line, which has this number, and adds it to the log: whether there is one.
fn read_line<S: Source>(
    source: &mut S,
    window: &mut LogWindow,
    log: &mut Log,
    number: u64,
) -> Result<bool, LogRefusal>
    ensures bytes { (xs : List ℕ) → Reached log.old.skips.items log.old.lines.items window.old (S.known source.old).left xs
        → Finds result log.new.skips.items log.new.lines.items window.new (S.known source.new).left xs }
    ensures grows { Grows result number log.old.skips.items log.old.lines.items log.new.skips.items log.new.lines.items }
    ensures faults { Counts (result ≡ Err ReadFault) (S.known source.old).faults (S.known source.new).faults }
{
    window.fill(source)?;
    if window.unread().is_empty() {
        return Ok(false);
    }
    let added = add_line(window, log)?;
    if added {
        Ok(true)
    } else {
        Err(LogRefusal::BadLine { number })
    }
}
