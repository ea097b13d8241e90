ghost use Rattle.std.specs.Prelude.{◌≡◌, ◌≤◌, IfOk, length};
ghost use Rattle.sr_demo.specs.Captured.{IsMade};
ghost use Rattle.sr_gen.specs.Capture.{capture_of, most_packets};

use sr_capture::{BeginRefusal, Captured, read_capture};
use sr_gen::make;
use sr_io::{MemSink, Put, Sink, SureSource};
use sr_rounds::Timed;
use std::alloc::{AllocError, Global};

// How many bytes a made capture has before its records, and how many each record has.
const HEADER: usize = 24;

const RECORD: usize = 56;

// How many bytes of it are read at a time.
const PIECE: usize = 65536;

// The bytes of the capture of so many packets that is made from a number. The sink has room for all of them.
fn made(alloc: Global, number: u64, packets: u32) -> Result<Vec<u8>, AllocError>
    requires { (1 ≤ packets) × (packets ≤ most_packets) }
    ensures { IfOk result (λ bytes. bytes.items ≡ capture_of number packets) }
{
    let mut sink = MemSink::new(alloc, HEADER + RECORD * packets as usize, Vec::new(alloc))?;
    match make(number, packets, &mut sink) {
        Put::All => Vec::from_slice(alloc, sink.bytes()),
        Put::Failed => Err(AllocError),
    }
}

/// Makes the capture of so many packets from a number, in memory, and reads it for these virtual addresses.
pub fn read_made(
    alloc: Global,
    number: u64,
    packets: u32,
    vips: &[(u32, u16)],
) -> Result<Captured<Timed>, AllocError>
    requires packets { (1 ≤ packets) × (packets ≤ most_packets) }
    requires vips { length vips.now ≤ 16 }
    ensures { IfOk result (IsMade number packets vips.now) }
{
    let bytes = made(alloc, number, packets)?;
    let mut source = SureSource::new(bytes, PIECE);
    match read_capture(alloc, vips, &mut source) {
        Ok(captured) => Ok(captured),
        Err(why) => match why {
            BeginRefusal::Memory => Err(AllocError),
            _ => unreachable!(),
        },
    }
}
