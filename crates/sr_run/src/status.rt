ghost use Rattle.std.specs.Prelude.{◌≡◌, ◌+◌, ◌≤◌, ◌++◌, length};
ghost use Rattle.std.specs.Fmt.{decimal};
ghost use Rattle.sr_io.specs.Sink.{Writes};
ghost use Rattle.sr_run.specs.Capture.{status_without};
ghost use Rattle.sr_run.specs.Status.{code_of, status_of_log, status_text, capture_words, clause_word, path_words};
ghost use Rattle.sr_run.specs.declared.status.Status.TheVariants as status;

use sr_base::Key;
use sr_capture::{BeginRefusal, CaptureRefusal};
use sr_io::{Put, Sink, WriteFault};
use sr_law::Clause;
use sr_script::ScriptRefusal;
use sr_text::{LineText, LogRefusal, put_key};
use std::alloc::AllocError;

/// How a run ended.
#[derive(Debug, Drop, PartialEq, Eq)]
pub enum Status {
    /// All is done.
    Done,
    /// The words are no command.
    Usage,
    /// The script was refused; nothing else was read.
    Script(ScriptRefusal),
    /// The capture was refused; what was read before a refused record was run and printed.
    Capture(CaptureRefusal),
    /// The source or the shelf failed.
    ReadFault,
    /// The sink failed, after it took a prefix of the text.
    WriteFault,
    /// No memory was found; nothing was printed.
    Memory,
    /// A change waits for this connection's key, which has no plan.
    Waiting(Key),
    /// An audited log is no text of the grammar, or isn't lawful.
    Breach {
        /// The line of the text, from 1; for `Final` one past the last.
        line: u64,
        /// What it breaks.
        clause: Clause,
    },
}

impl Status {
    /// The exit code of the program.
    pub fn code(&self) -> u8
        ensures { result ≡ code_of self.now }
    {
        match self {
            Status::Done => 0,
            Status::Usage => 1,
            Status::Script(_) => 2,
            Status::Capture(_) => 3,
            Status::ReadFault => 4,
            Status::WriteFault => 5,
            Status::Memory => 6,
            Status::Waiting(_) => 7,
            Status::Breach { .. } => 8,
        }
    }

    /// Appends the line that says how the run ended; nothing for `Done`.
    #[tactic(auto, unfolding(crate::specs::Status::status_text))]
    pub fn text<K: Sink>(&self, sink: &mut K) -> Put
        ensures { Writes result (K.known sink.old) (K.known sink.new) (status_text self.now) }
    {
        match self {
            Status::Done => sink.write(b""),
            Status::Usage => sink.write(
                b"silkroad: usage: one VIP SERVERS, replay SCRIPT, audit SCRIPT, make N PACKETS, demo N, steps SCRIPT SEED\n",
            ),
            Status::Script(refusal) => script_text(refusal, sink),
            Status::Capture(why) => capture_text(*why, sink),
            Status::ReadFault => sink.write(b"silkroad: read fault\n"),
            Status::WriteFault => sink.write(b"silkroad: write fault\n"),
            Status::Memory => sink.write(b"silkroad: no memory\n"),
            Status::Waiting(key) => waiting_text(key, sink),
            Status::Breach { line, clause } => breach_text(*line, *clause, sink),
        }
    }
}

impl From<AllocError> for Status {
    ghost from_gives = { λ _ s. s ≡ status.Memory };

    fn from(_: AllocError) -> Status {
        Status::Memory
    }
}

impl From<WriteFault> for Status {
    ghost from_gives = { λ _ s. s ≡ status.WriteFault };

    fn from(_: WriteFault) -> Status {
        Status::WriteFault
    }
}

impl From<BeginRefusal> for Status {
    ghost from_gives = { λ why s. s ≡ status_without why };

    fn from(why: BeginRefusal) -> Status {
        match why {
            BeginRefusal::Truncated { offset } => Status::Capture(CaptureRefusal::Cut { offset }),
            BeginRefusal::Magic => Status::Capture(CaptureRefusal::Magic),
            BeginRefusal::Major => Status::Capture(CaptureRefusal::Major),
            BeginRefusal::LinkType => Status::Capture(CaptureRefusal::LinkType),
            BeginRefusal::ReadFault => Status::ReadFault,
            BeginRefusal::Memory => Status::Memory,
        }
    }
}

impl From<LogRefusal> for Status {
    ghost from_gives = { λ why s. s ≡ status_of_log why };

    fn from(why: LogRefusal) -> Status {
        match why {
            LogRefusal::BadLine { number } => Status::Breach {
                line: number,
                clause: Clause::Text,
            },
            LogRefusal::ReadFault => Status::ReadFault,
            LogRefusal::Memory => Status::Memory,
        }
    }
}

// Appends the line that says why a script was refused, and where.
fn script_text<K: Sink>(refusal: &ScriptRefusal, sink: &mut K) -> Put
    ensures { Writes result (K.known sink.old) (K.known sink.new) (status_text (Status.Script refusal.now)) }
{
    match write_both(b"silkroad: script: ", refusal.why.word().as_bytes(), sink) {
        Put::All => path_text(refusal.path.as_bytes(), sink),
        Put::Failed => Put::Failed,
    }
}

// Appends where a script is at fault, and the line's end.
fn path_text<K: Sink>(path: &[u8], sink: &mut K) -> Put
    ensures { Writes result (K.known sink.old) (K.known sink.new) (path_words path.now) }
{
    match path {
        [] => sink.write(b"\n"),
        _ => match write_both(b" ", path, sink) {
            Put::All => sink.write(b"\n"),
            Put::Failed => Put::Failed,
        },
    }
}

// Appends these bytes, and then those.
fn write_both<K: Sink>(first: &[u8], second: &[u8], sink: &mut K) -> Put
    ensures { Writes result (K.known sink.old) (K.known sink.new) (first.now ++ second.now) }
{
    match sink.write(first) {
        Put::All => sink.write(second),
        Put::Failed => Put::Failed,
    }
}

// Appends the line that says for which key a change waits.
#[tactic(auto, unfolding(crate::specs::Status::status_text))]
fn waiting_text<K: Sink>(key: &Key, sink: &mut K) -> Put
    ensures { Writes result (K.known sink.old) (K.known sink.new) (status_text (Status.Waiting key.now)) }
{
    let mut text = LineText::new();
    put_key(key, &mut text);
    text.word(b"silkroad: waiting for ");
    sink.write(text.bytes())
}

// Appends the line that says which line of a log breaks what.
#[tactic(auto, unfolding(crate::specs::Status::status_text))]
fn breach_text<K: Sink>(line: u64, clause: Clause, sink: &mut K) -> Put
    ensures { Writes result (K.known sink.old) (K.known sink.new) (status_text (Status.Breach line clause)) }
{
    let mut text = LineText::new();
    text.word(clause_word(clause));
    text.word(b" breaks ");
    text.put_u64(line);
    text.word(b"silkroad: audit: line ");
    sink.write(text.bytes())
}

// The word for a clause.
fn clause_word(clause: Clause) -> &'static [u8]
    ensures word { result.now ≡ clause_word clause }
    ensures length { length result.now ≤ 6 }
{
    match clause {
        Clause::Text => b"text",
        Clause::Order => b"order",
        Clause::Server => b"server",
        Clause::Same => b"same",
        Clause::Newer => b"newer",
        Clause::Number => b"number",
        Clause::Cause => b"cause",
        Clause::Retire => b"retire",
        Clause::Final => b"final",
    }
}

// Appends the line that says why a capture was refused.
#[tactic(auto, unfolding(crate::specs::Status::status_text))]
fn capture_text<K: Sink>(why: CaptureRefusal, sink: &mut K) -> Put
    ensures { Writes result (K.known sink.old) (K.known sink.new) (status_text (Status.Capture why)) }
{
    let mut text = LineText::new();
    put_capture(why, &mut text);
    text.word(b"silkroad: capture: ");
    sink.write(text.bytes())
}

// Puts why a capture was refused.
fn put_capture(why: CaptureRefusal, text: &mut LineText)
    requires { length text.old ≤ 1 }
    ensures text { text.new ≡ capture_words why text.old }
    ensures length { length text.new ≤ 40 }
{
    match why {
        CaptureRefusal::Cut { offset } => put_offset(b"cut at ", offset, text),
        CaptureRefusal::TooLong { offset } => put_offset(b"too long at ", offset, text),
        CaptureRefusal::TooMany { offset } => put_offset(b"too many at ", offset, text),
        CaptureRefusal::Block { offset } => put_offset(b"block at ", offset, text),
        CaptureRefusal::Magic => text.word(b"magic"),
        CaptureRefusal::Major => text.word(b"major"),
        CaptureRefusal::LinkType => text.word(b"link type"),
    }
}

// Puts words and an offset behind them.
fn put_offset(words: &[u8], offset: u64, text: &mut LineText)
    requires { (length text.old ≤ 1) × (length words.now ≤ 12) }
    ensures text { text.new ≡ words.now ++ (decimal offset ++ text.old) }
    ensures length { length text.new ≤ 40 }
{
    text.put_u64(offset);
    text.word(words);
}
