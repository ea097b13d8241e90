ghost use Rattle.std.specs.Prelude.{◌≤◌};
ghost use Rattle.sr_gen.specs.Capture.{most_packets, capture_of, records_from};
ghost use Rattle.sr_io.specs.Sink.{Writes};

use crate::connections::Connections;
use crate::record::record;
use sr_io::{Put, Sink};

// The header of a classic capture: microseconds, the lowest byte first, version 2.4, snap length 262,144, raw IP.
const HEADER: [u8; 24] = [
    0xd4, 0xc3, 0xb2, 0xa1, 2, 0, 4, 0, 0, 0, 0, 0, 0, 0, 0, 0, 0, 0, 4, 0, 101, 0, 0, 0,
];

/// Writes the capture of so many packets that is made from this number: its header in one write, and each packet's record in one. It takes
/// no memory, and doesn't flush. Failed comes where the sink fails; a prefix of the capture was taken then.
#[tactic(auto, unfolding(crate::specs::Capture::capture_of))]
pub fn make<K: Sink>(number: u64, packets: u32, sink: &mut K) -> Put
    requires some { 1 ≤ packets }
    requires few { packets ≤ most_packets }
    ensures { Writes result (K.known sink.old) (K.known sink.new) (capture_of number packets) }
{
    match sink.write(&HEADER) {
        Put::All => write_records(number, packets, sink),
        Put::Failed => Put::Failed,
    }
}

// Writes the packets' records.
fn write_records<K: Sink>(number: u64, packets: u32, sink: &mut K) -> Put
    requires { packets ≤ most_packets }
    ensures { Writes result (K.known sink.old) (K.known sink.new) (records_from number 0 packets) }
{
    let mut connections = Connections::new(number);
    for t in 0..packets {
        match sink.write(&record(t, connections.take(t))) {
            Put::All => {}
            Put::Failed => return Put::Failed,
        }
    }
    Put::All
}
