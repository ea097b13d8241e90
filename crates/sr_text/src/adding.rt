ghost use Rattle.sr_text.specs.Adding.{Adds, AddsTo};
ghost use Rattle.sr_text.specs.LineText.{line_text, skip_text};
ghost use Rattle.sr_text.specs.Log.{LineNext, SkipNext};
ghost use Rattle.sr_text.specs.Ranges.{IsLine, IsSkipped};

use crate::Log;
use crate::line_at::{line_at, skip_at};
use crate::log_window::LogWindow;
use sr_frame::Skip;
use sr_law::Line;
use std::alloc::AllocError;

/// Adds the line at the front of a window and uses its bytes: whether one that can come next is there. The line of a skipped record comes
/// before all others.
pub(crate) fn add_line(window: &mut LogWindow, log: &mut Log) -> Result<bool, AllocError>
    ensures { Adds result window.old window.new log.old.skips.items log.old.lines.items log.new.skips.items log.new.lines.items }
{
    if !log.lines.is_empty() {
        return add_plain(window, &mut log.lines);
    }
    let skipped = add_skip(window, &mut log.skips)?;
    if skipped {
        return Ok(true);
    }
    add_plain(window, &mut log.lines)
}

// Adds the line of a skipped record.
fn add_skip(window: &mut LogWindow, skips: &mut Vec<(u32, Skip)>) -> Result<bool, AllocError>
    ensures { AddsTo skip_text IsSkipped SkipNext result window.old window.new skips.old.items skips.new.items }
{
    let unread = window.unread();
    let Some((skip, rest)) = skip_at(unread) else {
        return Ok(false);
    };
    let used = unread.len() - rest.len();
    skips.push(skip)?;
    window.pass(used);
    Ok(true)
}

// Adds any other line.
fn add_plain(window: &mut LogWindow, lines: &mut Vec<Line>) -> Result<bool, AllocError>
    ensures { AddsTo line_text IsLine LineNext result window.old window.new lines.old.items lines.new.items }
{
    let unread = window.unread();
    let Some((line, rest)) = line_at(unread) else {
        return Ok(false);
    };
    let used = unread.len() - rest.len();
    lines.push(line)?;
    window.pass(used);
    Ok(true)
}
