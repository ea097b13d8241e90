ghost use Rattle.std.specs.Prelude.{◌≡◌};
ghost use Rattle.std.specs.List.{flat_map};
ghost use Rattle.sr_io.specs.Sink.{Writes, put_of};
ghost use Rattle.sr_text.specs.LineText.{line_text, log_text};

use crate::print_log::print_skips;
use sr_frame::Skip;
use sr_io::{Sink, WriteFault};
use sr_law::Line;
use sr_text::{print, print_head};

/// Prints a log: the skipped records, and these lines. It takes no memory, and flushes.
pub(crate) fn print_lines<K: Sink>(
    skips: &[(u32, Skip)],
    lines: &[Line],
    sink: &mut K,
) -> Result<(), WriteFault>
    ensures { Writes (put_of result) (K.known sink.old) (K.known sink.new) (log_text skips.now lines.now) }
{
    print_head(sink).ok()?;
    print_skips(skips, sink)?;
    print_each(lines, sink)?;
    sink.flush().ok()
}

// Prints these lines.
fn print_each<K: Sink>(lines: &[Line], sink: &mut K) -> Result<(), WriteFault>
    ensures { Writes (put_of result) (K.known sink.old) (K.known sink.new) (flat_map line_text lines.now) }
{
    for line in lines {
        print(line, sink).ok()?;
    }
    Ok(())
}
