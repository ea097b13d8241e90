//! The law of what never fails: over it no call answers a fault. It is proved from what the traits say alone, by the count of faults.
ghost use Rattle.std.specs.Prelude.{◌≡◌, ◌≢◌, ◌<◌, length, [], Some};
ghost use Rattle.std.specs.Option.{ForSome};
ghost use Rattle.sr_io.specs.Faults.{Counts};
ghost use Rattle.sr_io.specs.Shelf.{Fetches, FetchFailed};
ghost use Rattle.sr_io.specs.Sink.{Writes, Adds};
ghost use Rattle.sr_io.specs.Source.{IsWithin, Takes};
ghost use Rattle.sr_io.specs.SureSink.{told_of};

use crate::{FetchRefusal, Got, Put, Shelf, Sink, Source, SureShelf, SureSink, SureSource};
use std::alloc::Global;

// One read of any source.
fn read_any<S: Source>(source: &mut S, into: &mut [u8]) -> Got
    requires { 0 < length into.old }
    ensures within { IsWithin result (length into.new) }
    ensures bytes { ForSome (S.known source.old).left (λ xs. Takes result xs into.new (S.known source.new).left) }
    ensures faults { Counts (result ≡ Got.Failed) (S.known source.old).faults (S.known source.new).faults }
{
    source.read(into)
}

// One fetch from any shelf.
fn fetch_any<F: Shelf>(
    shelf: &mut F,
    alloc: Global,
    name: &str,
    limit: usize,
) -> Result<Vec<u8>, FetchRefusal>
    ensures text { ForSome (F.known shelf.old).texts (λ texts. Fetches (λ v. v.items) result (texts name.now) limit) }
    ensures faults { Counts (FetchFailed result) (F.known shelf.old).faults (F.known shelf.new).faults }
{
    shelf.fetch(alloc, name, limit)
}

// One write to any sink.
fn write_any<K: Sink>(sink: &mut K, bytes: &[u8]) -> Put
    ensures { Writes result (K.known sink.old) (K.known sink.new) bytes.now }
{
    sink.write(bytes)
}

// One flush of any sink.
fn flush_any<K: Sink>(sink: &mut K) -> Put
    ensures { Writes result (K.known sink.old) (K.known sink.new) [] }
{
    sink.flush()
}

/// A read that can't fail.
pub fn read_surely(source: &mut SureSource, into: &mut [u8]) -> Got
    requires { 0 < length into.old }
    ensures never { result ≢ Got.Failed }
    ensures within { IsWithin result (length into.new) }
    ensures bytes { Takes result source.old.left into.new (Some source.new.left) }
{
    read_any(source, into)
}

/// A fetch that can't fail: it finds the text, or tells that it is too long, or finds no memory.
pub fn fetch_surely(
    shelf: &mut SureShelf,
    alloc: Global,
    name: &str,
    limit: usize,
) -> Result<Vec<u8>, FetchRefusal>
    ensures never { ¬ FetchFailed result }
    ensures text { Fetches (λ v. v.items) result (Some shelf.old) limit }
{
    fetch_any(shelf, alloc, name, limit)
}

/// A write that can't fail.
pub fn write_surely(sink: &mut SureSink, bytes: &[u8]) -> Put
    ensures never { result ≡ Put.All }
    ensures bytes { Adds (told_of sink.old) (told_of sink.new) bytes.now }
{
    write_any(sink, bytes)
}

/// A flush that can't fail.
pub fn flush_surely(sink: &mut SureSink) -> Put
    ensures { result ≡ Put.All }
{
    flush_any(sink)
}
