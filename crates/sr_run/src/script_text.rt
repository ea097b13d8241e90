ghost use Rattle.std.specs.Prelude.{◌≡◌, ◌≢◌, ◌≤◌, Some, Err, length};
ghost use Rattle.std.specs.Option.{ForSome};
ghost use Rattle.sr_io.specs.Faults.{Counts};
ghost use Rattle.sr_run.specs.ScriptText.{Fetches, IsReady, most_script_bytes};
ghost use Rattle.sr_run.specs.declared.status.Status.TheVariants as status;

use crate::Status;
use sr_io::{FetchRefusal, Shelf};
use sr_script::{ParseRefusal, Script, ScriptRefusal, Why, parse};
use std::alloc::Global;

/// Fetches the script of this name. Its text has 1,048,576 bytes at most. The error is how the run ends: the text is no script, the shelf
/// failed, or no memory was found.
pub(crate) fn fetch_script<F: Shelf>(
    alloc: Global,
    name: &str,
    shelf: &mut F,
) -> Result<Script, Status>
    ensures text { ForSome (F.known shelf.old).texts (λ texts. Fetches result (texts name.now)) }
    ensures ready { IsReady result }
    ensures faults { Counts (result ≡ Err status.ReadFault) (F.known shelf.old).faults (F.known shelf.new).faults }
{
    match shelf.fetch(alloc, name, 1_048_576) {
        Ok(text) => parsed(alloc, text.as_slice()),
        Err(FetchRefusal::TooLong) => Err(Status::Script(ScriptRefusal {
            why: Why::TextTooLong,
            path: String::new(alloc),
        })),
        Err(FetchRefusal::Failed) => Err(Status::ReadFault),
        Err(FetchRefusal::Memory) => Err(Status::Memory),
    }
}

// The script that a text is.
fn parsed(alloc: Global, text: &[u8]) -> Result<Script, Status>
    ensures text { length text.now ≤ most_script_bytes → Fetches result (Some text.now) }
    ensures ready { IsReady result }
    ensures sound { result ≢ Err status.ReadFault }
{
    match parse(alloc, text) {
        Ok(script) => Ok(script),
        Err(ParseRefusal::Script(refusal)) => Err(Status::Script(refusal)),
        Err(ParseRefusal::Memory) => Err(Status::Memory),
    }
}
