//! The program `silkroad`: makes the source, the shelf, the sink and the gate out of standard input, the files, standard output and an open
//! gate, and passes them to `sr_run::run`.
#![tactic(auto)]

use sr_io::{FileShelf, OpenGate, ReadSource, WriteSink};
use sr_run::{Status, run};
use std::alloc::Global;
use std::env;
use std::io::{self, BufWriter, ErrorKind};
use std::process::ExitCode;
use std::rt::Env;

// How many bytes are written at a time. Those that are read go through a window of the reading crate's own.
const BLOCK: usize = 262_144;

// The words after the program's name.
fn read_words<R: Env + AllocGlobal>(rt: &R) -> io::Result<Vec<String>> {
    let mut words = Vec::new(rt.alloc());
    for word in env::args(rt)?.skip(1) {
        words.push(word)?;
    }
    Ok(words)
}

// The status where the words couldn't be read: one of them isn't text, or no memory was found.
fn without_words(error: &io::Error) -> Status {
    if error.kind() == ErrorKind::InvalidData {
        Status::Usage
    } else {
        Status::Memory
    }
}

fn main(rt: HostRuntime) -> ExitCode {
    let alloc = rt.alloc();
    let words = read_words(&rt);
    let writer = BufWriter::with_capacity(alloc, BLOCK, rt.stdout());
    let status = match (words, writer) {
        (Ok(words), Ok(writer)) => {
            let mut source = ReadSource::new(rt.stdin());
            let mut shelf = FileShelf::new(&rt);
            let mut sink = WriteSink::new(writer);
            run(
                &rt,
                alloc,
                &words,
                &mut source,
                &mut shelf,
                &mut sink,
                &OpenGate,
            )
        }
        (Err(error), _) => without_words(&error),
        _ => Status::Memory,
    };
    let mut errors = WriteSink::new(rt.stderr());
    let _ = status.text(&mut errors);
    ExitCode::from(status.code())
}
