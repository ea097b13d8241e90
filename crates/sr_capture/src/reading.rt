ghost use Rattle.std.specs.Prelude.{◌≡◌, ℕ, ◌≤◌, List, Err, IfOk, length};
ghost use Rattle.std.specs.Option.{ForSome};
ghost use Rattle.sr_io.specs.Faults.{Counts};
ghost use Rattle.sr_io.specs.Window.{Pending};
ghost use Rattle.sr_capture.specs.Capture.{EndsWith, Reads, ReadsOn, most_records};
ghost use Rattle.sr_capture.specs.Reader.{IsGoing, place_of, window_of};
ghost use Rattle.sr_capture.specs.Records.{records_from};
ghost use Rattle.sr_pcap.specs.declared.begin_refusal.BeginRefusal.TheVariants as begin;

use crate::capture_reader::CaptureReader;
use crate::clock::Clock;
use crate::keep::{keep, see};
use crate::record::Record;
use crate::{CaptureRefusal, Captured, Kept};
use sr_io::Source;
use sr_pcap::BeginRefusal;
use std::alloc::Global;

// The most whole records of a capture.
const MOST_RECORDS: u32 = 4_194_304;

/// Reads a whole capture, of which the packets to these virtual addresses are kept. The error says that the header was refused, that the source
/// failed, or that no memory was found.
pub fn read_capture<T: Kept + Drop, S: Source>(
    alloc: Global,
    vips: &[(u32, u16)],
    source: &mut S,
) -> Result<Captured<T>, BeginRefusal>
    requires { length vips.now ≤ 16 }
    ensures capture { ForSome (S.known source.old).left (λ xs. Reads T.kept result vips.now xs (S.known source.new).left) }
    ensures few { IfOk result (λ captured. length captured.packets.items ≤ most_records) }
    ensures faults { Counts (result ≡ Err begin.ReadFault) (S.known source.old).faults (S.known source.new).faults }
{
    let reader = CaptureReader::begin(alloc, source)?;
    read_records(alloc, vips, reader, source)
}

// Reads the records, of a reader that has begun.
fn read_records<T: Kept + Drop, S: Source>(
    alloc: Global,
    vips: &[(u32, u16)],
    mut reader: CaptureReader,
    source: &mut S,
) -> Result<Captured<T>, BeginRefusal>
    requires going { IsGoing reader }
    requires vips { length vips.now ≤ 16 }
    ensures capture { (xs : List ℕ) → Pending (window_of reader) (S.known source.old).left xs
        → ReadsOn T.kept result vips.now (records_from most_records (place_of reader) xs) (S.known source.new).left }
    ensures few { IfOk result (λ captured. length captured.packets.items ≤ most_records) }
    ensures faults { Counts (result ≡ Err begin.ReadFault) (S.known source.old).faults (S.known source.new).faults }
{
    let mut skips = Vec::new(alloc);
    let mut packets = Vec::new(alloc);
    let mut clock = Clock::new();
    for number in 0..MOST_RECORDS {
        match reader.next(source) {
            Record::Whole { ms, link, .. } => {
                clock.see(ms);
                let seen = see(link, reader.bytes(), vips);
                keep(number + 1, clock.time(), seen, &mut skips, &mut packets)?;
            }
            Record::Over(ending) => {
                return Ok(Captured {
                    skips,
                    packets,
                    ending,
                });
            }
            Record::Failed => return Err(BeginRefusal::ReadFault),
        }
    }
    let ending = last(reader.next(source))?;
    Ok(Captured {
        skips,
        packets,
        ending,
    })
}

// Why a capture ends with what comes after as many records as it may have.
fn last(next: Record) -> Result<Option<CaptureRefusal>, BeginRefusal>
    ensures { EndsWith result next }
{
    match next {
        Record::Whole { offset, .. } => Ok(Some(CaptureRefusal::TooMany { offset })),
        Record::Over(ending) => Ok(ending),
        Record::Failed => Err(BeginRefusal::ReadFault),
    }
}
