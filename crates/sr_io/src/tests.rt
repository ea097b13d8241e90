//! Worked rows of the sources, shelves and sinks; each call that allocates succeeds here once.
ghost use Rattle.std.specs.Prelude.{◌≡◌, ◌≤◌, length};

use crate::*;
use std::alloc::{AllocError, Global};
use std::test::Fail;

// Reads up to four bytes: the answer, and the buffer's first byte.
fn read_four<S: Source>(source: &mut S) -> (Got, u8) {
    let mut into = [0u8; 4];
    let got = source.read(&mut into);
    (got, into[0])
}

#[test]
fn mem_source(rt: HostRuntime) -> Result<(), Fail> {
    let bytes = Vec::from_slice(rt.alloc(), b"abcdefgh")?;
    let fails = Vec::from_slice(rt.alloc(), &[2, 4])?;
    let mut source = MemSource::new(bytes, 3, fails);
    let rows = [
        (Got::Bytes(3), b'a'),
        (Got::Failed, 0),
        (Got::Bytes(3), b'd'),
        (Got::Failed, 0),
        (Got::Bytes(2), b'g'),
        (Got::End, 0),
    ];
    for (got, first) in rows {
        assert_eq!(rt; read_four(&mut source), (got, first));
    }
    Ok(())
}

#[test]
fn sure_source(rt: HostRuntime) -> Result<(), Fail> {
    let bytes = Vec::from_slice(rt.alloc(), b"abcdef")?;
    let mut source = SureSource::new(bytes, 9);
    assert_eq!(rt; read_four(&mut source), (Got::Bytes(4), b'a'));
    assert_eq!(rt; read_surely(&mut source, &mut [0u8; 1]), Got::Bytes(1));
    for (got, first) in [(Got::Bytes(1), b'f'), (Got::End, 0)] {
        assert_eq!(rt; read_four(&mut source), (got, first));
    }
    Ok(())
}

// Writes a text, or flushes where there is none.
fn put<K: Sink>(sink: &mut K, text: &str) -> Put {
    if text.is_empty() {
        return sink.flush();
    }
    sink.write(text.as_bytes())
}

#[test]
fn mem_sink(rt: HostRuntime) -> Result<(), Fail> {
    let fails = Vec::from_slice(rt.alloc(), &[2, 3])?;
    let mut sink = MemSink::new(rt.alloc(), 9, fails)?;
    let rows = [
        ("abc", Put::All, "abc"),
        ("defgh", Put::Failed, "abcde"),
        ("", Put::Failed, "abcde"),
        ("fgh", Put::All, "abcdefgh"),
        ("ijk", Put::Failed, "abcdefghi"),
        ("", Put::All, "abcdefghi"),
    ];
    for (text, answer, taken) in rows {
        assert_eq!(rt; put(&mut sink, text), answer);
        assert_eq!(rt; sink.bytes(), taken.as_bytes());
    }
    Ok(())
}

#[test]
fn sure_sink(rt: HostRuntime) -> Result<(), Fail> {
    let mut sink = SureSink::new(rt.alloc(), 4)?;
    for (text, taken) in [("ab", "ab"), ("cd", "abcd"), ("e", "abcd")] {
        assert_eq!(rt; write_surely(&mut sink, text.as_bytes()), Put::All);
        assert_eq!(rt; sink.bytes(), taken.as_bytes());
    }
    assert_eq!(rt; flush_surely(&mut sink), Put::All);
    Ok(())
}

// What a fetch gives, as the length of the text.
fn fetch<F: Shelf>(
    shelf: &mut F,
    alloc: Global,
    name: &str,
    limit: usize,
) -> Result<usize, FetchRefusal> {
    match shelf.fetch(alloc, name, limit) {
        Ok(text) => Ok(text.len()),
        Err(e) => Err(e),
    }
}

// A shelf with three files, two of one name, whose third call fails.
fn three_files(alloc: Global) -> Result<MemShelf, AllocError> {
    let mut files = Vec::new(alloc);
    for (name, text) in [("one", "abc"), ("two", "defgh"), ("one", "ij")] {
        let name = String::from_str(alloc, name)?;
        let text = Vec::from_slice(alloc, text.as_bytes())?;
        files.push((name, text))?;
    }
    let fails = Vec::from_slice(alloc, &[3])?;
    Ok(MemShelf::new(files, fails))
}

#[test]
fn mem_shelf(rt: HostRuntime) -> Result<(), Fail> {
    let mut shelf = three_files(rt.alloc())?;
    let rows = [
        ("one", 3, Ok(3)),
        ("two", 4, Err(FetchRefusal::TooLong)),
        ("two", 5, Err(FetchRefusal::Failed)),
        ("two", 5, Ok(5)),
        ("three", 5, Err(FetchRefusal::Failed)),
    ];
    for (name, limit, want) in rows {
        assert_eq!(rt; fetch(&mut shelf, rt.alloc(), name, limit), want);
    }
    Ok(())
}

#[test]
fn sure_shelf(rt: HostRuntime) -> Result<(), Fail> {
    let text = Vec::from_slice(rt.alloc(), b"abc")?;
    let mut shelf = SureShelf::new(text);
    assert_eq!(rt; fetch(&mut shelf, rt.alloc(), "any", 3), Ok(3));
    assert!(rt; fetch_surely(&mut shelf, rt.alloc(), "any", 2).is_err());
    Ok(())
}

#[test]
fn read_source(rt: HostRuntime) {
    let bytes: &[u8] = b"abcdef";
    let mut source = ReadSource::new(bytes);
    for (got, first) in [(Got::Bytes(4), b'a'), (Got::Bytes(2), b'e'), (Got::End, 0)] {
        assert_eq!(rt; read_four(&mut source), (got, first));
    }
}

#[test]
fn write_sink(rt: HostRuntime) {
    let mut sink = WriteSink::new(Vec::new(rt.alloc()));
    for text in ["abc", ""] {
        assert_eq!(rt; put(&mut sink, text), Put::All);
    }
}

#[test]
fn file_shelf(rt: HostRuntime) {
    let mut shelf = FileShelf::new(&rt);
    let rows = [
        ("/dev/null", 0, Ok(0)),
        ("/dev/zero", 4, Err(FetchRefusal::TooLong)),
        ("/dev/null/none", 4, Err(FetchRefusal::Failed)),
    ];
    for (name, limit, want) in rows {
        assert_eq!(rt; fetch(&mut shelf, rt.alloc(), name, limit), want);
    }
}

// Uses so many bytes, or all that there are.
fn pass_some(window: &mut Window, n: usize)
    ensures room { window.new.room ≡ window.old.room }
    ensures used { length window.new.used ≤ n }
{
    let n = n.min(window.unread().len());
    window.pass(n);
}

#[test]
fn window(rt: HostRuntime) -> Result<(), Fail> {
    let bytes = Vec::from_slice(rt.alloc(), b"abcdefgh")?;
    let fails = Vec::from_slice(rt.alloc(), &[2])?;
    let mut source = MemSource::new(bytes, 3, fails);
    let mut window = Window::new(rt.alloc(), 7)?;
    assert_eq!(rt; window.fill(&mut source, 4), Err(ReadFault));
    assert_eq!(rt; window.unread(), b"abc".as_slice());
    assert!(rt; window.fill(&mut source, 4).is_ok());
    assert_eq!(rt; window.unread(), b"abcdef".as_slice());
    pass_some(&mut window, 5);
    assert!(rt; window.fill(&mut source, 2).is_ok());
    assert_eq!(rt; window.used(), b"abcde".as_slice());
    assert_eq!(rt; window.unread(), b"fg".as_slice());
    pass_some(&mut window, 1);
    assert!(rt; window.fill(&mut source, 3).is_ok());
    assert_eq!(rt; window.used(), b"f".as_slice());
    assert_eq!(rt; window.unread(), b"gh".as_slice());
    Ok(())
}
