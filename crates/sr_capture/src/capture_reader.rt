ghost use Rattle.std.specs.Prelude.{◌≡◌, ℕ, ◌≤◌, List, Err, IfOk, length};
ghost use Rattle.std.specs.Option.{ForSome};
ghost use Rattle.sr_io.specs.Faults.{Counts};
ghost use Rattle.sr_io.specs.Window.{Pending};
ghost use Rattle.sr_capture.specs.Capture.{begin_of, is_pcapng};
ghost use Rattle.sr_capture.specs.Reader.{Answers, Begins, GoesOn, IsGoing, bytes_of, place_of, window_of};
ghost use Rattle.sr_capture.specs.Records.{next_record};
ghost use Rattle.sr_capture.specs.declared.record.Record.TheVariants.{Failed};
ghost use Rattle.sr_pcap.specs.declared.begin_refusal.BeginRefusal.TheVariants as begin;

use crate::record::Record;
use byteorder::{BigEndian, ByteOrder};
use sr_io::Source;
use sr_pcap::{BeginRefusal, Reader};
use sr_pcapng::NgReader;
use std::alloc::Global;

// The first four bytes of a pcapng capture: the type of a section header, which is the same in both byte orders.
const PCAPNG: u32 = 0x0a0d_0d0a;

/// Reads a capture of either form, a record at a time.
#[derive(Debug, Drop)]
pub enum CaptureReader {
    /// A classic capture.
    Classic(Reader),
    /// A pcapng capture.
    Ng(NgReader),
}

impl CaptureReader {
    /// Reads the first four bytes, and of a classic capture the header. Then all memory is found that reading needs.
    pub fn begin<S: Source>(alloc: Global, source: &mut S) -> Result<CaptureReader, BeginRefusal>
        ensures begins { ForSome (S.known source.old).left (λ xs. Begins result xs (S.known source.new).left) }
        ensures going { IfOk result IsGoing }
        ensures faults { Counts (result ≡ Err begin.ReadFault) (S.known source.old).faults (S.known source.new).faults }
    {
        let mut window = Reader::window(alloc)?;
        window.fill(source, 4)?;
        if is_pcapng(window.unread()) {
            Ok(CaptureReader::Ng(NgReader::begin(alloc, window)?))
        } else {
            Ok(CaptureReader::Classic(Reader::begin_through(window, source)?))
        }
    }

    /// The captured bytes of the last whole record.
    pub fn bytes(&self) -> &[u8]
        ensures { result.now ≡ bytes_of self.now }
    {
        match self {
            CaptureReader::Classic(reader) => reader.bytes(),
            CaptureReader::Ng(reader) => reader.bytes(),
        }
    }

    /// Reads the next record.
    pub fn next<S: Source>(&mut self, source: &mut S) -> Record
        requires { IsGoing self.old }
        ensures record { (xs : List ℕ) → Pending (window_of self.old) (S.known source.old).left xs
            → Answers result (next_record (place_of self.old) xs) self.new (S.known source.new).left }
        ensures going { GoesOn result self.new }
        ensures faults { Counts (result ≡ Failed) (S.known source.old).faults (S.known source.new).faults }
    {
        match self {
            CaptureReader::Classic(reader) => {
                let next = reader.next(source);
                Record::of_classic(next, reader.link())
            }
            CaptureReader::Ng(reader) => Record::of_ng(reader.next(source)),
        }
    }
}

// Whether a capture with these first bytes is pcapng.
#[tactic(auto, unfolding(crate::specs::Capture::is_pcapng))]
fn is_pcapng(bytes: &[u8]) -> bool
    ensures { result ≡ is_pcapng bytes.now }
{
    if bytes.len() < 4 {
        return false;
    }
    BigEndian::read_u32(&bytes[..4]) == PCAPNG
}
