ghost use Rattle.std.specs.Prelude.{◌≡◌, ◌++◌, MatchOption};
ghost use Rattle.sr_text.specs.LineText.{line_text, skip_text};
ghost use Rattle.sr_text.specs.Log.{LineNext, SkipNext};
ghost use Rattle.sr_text.specs.Ranges.{IsLine, IsSkipped};

use crate::line_fronts::{line_front, skip_front};
use sr_frame::Skip;
use sr_law::Line;

/// The line of the grammar at the front, and what follows its line feed.
pub(crate) fn line_at(bytes: &[u8]) -> Option<(Line, &[u8])>
    ensures { MatchOption result (¬ (LineNext bytes.now)) (λ x. IsLine x.0 × (bytes.now ≡ line_text x.0 ++ x.1.now)) }
{
    line_front(bytes)
}

/// The line of a skipped record at the front, and what follows its line feed.
pub(crate) fn skip_at(bytes: &[u8]) -> Option<((u32, Skip), &[u8])>
    ensures { MatchOption result (¬ (SkipNext bytes.now)) (λ x. IsSkipped x.0 × (bytes.now ≡ skip_text x.0 ++ x.1.now)) }
{
    skip_front(bytes)
}
