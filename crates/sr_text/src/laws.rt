//! Laws: whatever the lines of a log are, they are lines of the grammar, so that what was printed is read back.
ghost use Rattle.std.specs.List.{All};
ghost use Rattle.sr_text.specs.Log.{IsLog};
ghost use Rattle.sr_text.specs.Ranges.{IsLine, IsPlace, IsSkipped, IsVerdict};

use sr_base::{Place, key_ranges};
use sr_frame::Skip;
use sr_law::{Line, Verdict};

// A verdict's numbers.
fn verdict_ranges(verdict: Verdict)
    ensures { IsVerdict verdict }
{
    match verdict {
        Verdict::To {
            server,
            version,
            pool,
        }
        | Verdict::Down {
            server,
            version,
            pool,
        } => {
            let _ = (server, version.number(), pool);
        }
        Verdict::Held(_) | Verdict::Full | Verdict::NoPlace => {}
    }
}

// A place's numbers.
fn place_ranges(place: Place)
    ensures { IsPlace place }
{
    match place {
        Place::Slot { way, bucket, cell } => {
            let _ = (way, bucket, cell);
        }
        Place::Row { row } => {
            let _ = row;
        }
    }
}

/// A line's numbers are those that the grammar takes.
#[tactic(auto, unfolding(crate::specs::Ranges::IsLine))]
pub fn line_ranges(line: Line)
    ensures { IsLine line }
{
    match line {
        Line::Packet { key, verdict, .. } | Line::Answer { key, verdict, .. } => {
            key_ranges(key);
            verdict_ranges(verdict);
        }
        Line::Given { version, .. } => {
            let _ = version.number();
        }
        Line::Reserved { key, place, .. }
        | Line::Placed { key, place, .. }
        | Line::Cleared { key, place, .. } => {
            key_ranges(key);
            place_ranges(place);
        }
        Line::Retired { key, .. } => key_ranges(key),
        Line::Recorded { .. }
        | Line::Hold { .. }
        | Line::Switched { .. }
        | Line::Finished { .. }
        | Line::TakenDown { .. }
        | Line::Swept { .. }
        | Line::Refused { .. } => {}
    }
}

/// The lists of any log are those of a text of the grammar.
pub fn log_ranges(skips: &[(u32, Skip)], lines: &[Line])
    ensures { IsLog skips.now lines.now }
{
    skips_ranges(skips);
    lines_ranges(lines);
}

// The number of a skipped record.
fn skip_range(skip: (u32, Skip))
    ensures { IsSkipped skip }
{
    let _ = skip.0;
}

// The numbers of skipped records.
fn skips_ranges(skips: &[(u32, Skip)])
    ensures { All IsSkipped skips.now }
{
    for skip in skips {
        skip_range(*skip);
    }
}

// The numbers of lines.
fn lines_ranges(lines: &[Line])
    ensures { All IsLine lines.now }
{
    for line in lines {
        line_ranges(*line);
    }
}
