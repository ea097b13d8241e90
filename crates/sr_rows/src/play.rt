//! Plays a row: words and an input, through devices in memory some calls of which may fail; and tells what came of it.
use crate::bytes::capture;
use sr_io::{MemSink, MemSource, OpenGate, Shelf, Sink, SureShelf};
use sr_run::{Status, run};
use std::alloc::{AllocError, Global};
use std::thread::Threads;

/// What a row is played with.
#[derive(Clone, Copy)]
pub struct Row<'a> {
    /// The words after the program's name, joined by `|`; nothing for no words.
    pub words: &'a str,
    /// The bytes of the source.
    pub input: &'a [u8],
    /// How many bytes a read gives at most.
    pub piece: usize,
    /// The source's call that fails, from 1; 0 for none.
    pub read_fails: u64,
    /// The sink's call that fails, from 1; 0 for none.
    pub write_fails: u64,
}

/// The log of the first run.
pub const FIRST: &str = "silkroad 1
give 1 0 0 1
packet 1 2 3 0 0/10.0.0.9:4000 open to 0 0 1
packet 2 4 5 0 0/10.0.0.9:4000 data to 0 0 1
";

/// What is told of the first run.
pub const FIRST_TOLD: &str = "silkroad 1
give 1 0 0 1
packet 1 2 3 0 0/10.0.0.9:4000 open to 0 0 1
packet 2 4 5 0 0/10.0.0.9:4000 data to 0 0 1
exit 0
";

/// What is told where the source or the shelf fails.
pub const READ_FAULT: &str = "exit 4 silkroad: read fault\n";

/// What is told last where the sink fails.
pub const WRITE_FAULT: &str = "exit 5 silkroad: write fault\n";

/// The capture of the first run: a SYN, and a data segment.
pub fn first_run(alloc: Global) -> Result<Vec<u8>, AllocError> {
    capture(alloc, "raw syn data")
}

/// The row of the command `one` over these bytes, in pieces of this size.
pub fn row_of(input: &[u8], piece: usize) -> Row<'_> {
    Row {
        words: "one|192.0.2.1:80|10.1.0.1:80",
        input,
        piece,
        read_fails: 0,
        write_fails: 0,
    }
}

/// The words, each a text of its own.
pub fn owned(alloc: Global, words: &str) -> Result<Vec<String>, AllocError> {
    let mut all = Vec::new(alloc);
    if !words.is_empty() {
        for word in words.split('|') {
            all.push(String::from_str(alloc, word)?)?;
        }
    }
    Ok(all)
}

// The source of a row.
fn source_of(alloc: Global, row: Row) -> Result<MemSource, AllocError> {
    let input = Vec::from_slice(alloc, row.input)?;
    let fails = Vec::from_slice(alloc, &[row.read_fails])?;
    Ok(MemSource::new(input, row.piece.max(1), fails))
}

// A sink with this call that fails.
fn sink_of(alloc: Global, fails: u64) -> Result<MemSink, AllocError> {
    MemSink::new(alloc, 262_144, Vec::from_slice(alloc, &[fails])?)
}

// Begins the line that says how a run ended.
fn exit_words(code: u8) -> &'static [u8] {
    match code {
        0 => b"exit 0\n",
        1 => b"exit 1 ",
        2 => b"exit 2 ",
        3 => b"exit 3 ",
        4 => b"exit 4 ",
        5 => b"exit 5 ",
        6 => b"exit 6 ",
        7 => b"exit 7 ",
        8 => b"exit 8 ",
        _ => b"exit ? ",
    }
}

// What was printed, and then a line: the exit code, and what the program says of the status on standard error.
fn told(alloc: Global, output: &[u8], status: &Status) -> Result<MemSink, AllocError> {
    let mut told = sink_of(alloc, 0)?;
    let _ = told.write(output);
    let _ = told.write(exit_words(status.code()));
    let _ = status.text(&mut told);
    Ok(told)
}

// Plays words over a source, and tells what came of it.
fn told_from<R: Threads + Sync, F: Shelf>(
    rt: &R,
    alloc: Global,
    row: Row,
    source: &mut MemSource,
    shelf: &mut F,
) -> Result<MemSink, AllocError> {
    let words = owned(alloc, row.words)?;
    let mut sink = sink_of(alloc, row.write_fails)?;
    let status = run(
        rt,
        alloc,
        words.as_slice(),
        source,
        shelf,
        &mut sink,
        &OpenGate,
    );
    told(alloc, sink.bytes(), &status)
}

/// Plays the row over this shelf, and tells what came of it.
pub fn told_over<R: Threads + Sync, F: Shelf>(
    rt: &R,
    alloc: Global,
    row: Row,
    shelf: &mut F,
) -> Result<MemSink, AllocError> {
    let mut source = source_of(alloc, row)?;
    told_from(rt, alloc, row, &mut source, shelf)
}

/// Plays the row over a shelf that has this text under every name, and tells what came of it.
pub fn told_with<R: Threads + Sync>(
    rt: &R,
    alloc: Global,
    row: Row,
    script: &[u8],
) -> Result<MemSink, AllocError> {
    let mut shelf = SureShelf::new(Vec::from_slice(alloc, script)?);
    told_over(rt, alloc, row, &mut shelf)
}

/// Whether this is told of the row.
pub fn tells<R: Threads + Sync>(
    rt: &R,
    alloc: Global,
    row: Row,
    wanted: &str,
) -> Result<bool, AllocError> {
    let told = told_with(rt, alloc, row, &[])?;
    Ok(told.bytes() == wanted.as_bytes())
}

/// Whether a prefix of this text was printed, and then the sink failed.
pub fn is_cut_short(told: &[u8], text: &str) -> bool {
    match told.strip_suffix(WRITE_FAULT.as_bytes()) {
        Some(front) => text.as_bytes().starts_with(front),
        None => false,
    }
}
