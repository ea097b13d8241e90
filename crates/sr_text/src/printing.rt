ghost use Rattle.sr_io.specs.Sink.{Writes};
ghost use Rattle.sr_text.specs.LineText.{head_text, line_text, skip_text};

use crate::line_text::LineText;
use crate::put::{put_line, put_skip};
use sr_frame::Skip;
use sr_io::{Put, Sink};
use sr_law::Line;

/// Prints the first line of a log.
pub fn print_head<K: Sink>(sink: &mut K) -> Put
    ensures { Writes result (K.known sink.old) (K.known sink.new) head_text }
{
    sink.write(b"silkroad 1\n")
}

/// Prints a line, in one write.
pub fn print<K: Sink>(line: &Line, sink: &mut K) -> Put
    ensures { Writes result (K.known sink.old) (K.known sink.new) (line_text line.now) }
{
    let mut text = LineText::new();
    put_line(line, &mut text);
    sink.write(text.bytes())
}

/// Prints the line of a skipped record: its position in the capture, from 1, and why it was skipped.
pub fn print_skip<K: Sink>(number: u32, why: Skip, sink: &mut K) -> Put
    ensures { Writes result (K.known sink.old) (K.known sink.new) (skip_text (number, why)) }
{
    let mut text = LineText::new();
    put_skip(number, why, &mut text);
    sink.write(text.bytes())
}
