ghost use Rattle.std.specs.Prelude.{◌≡◌, ◌≤◌};
ghost use Rattle.sr_gen.specs.Capture.{most_packets};
ghost use Rattle.sr_io.specs.Faults.{Counts};
ghost use Rattle.sr_run.specs.Make.{RunsMake};
ghost use Rattle.sr_run.specs.Outside.{WritesNothing};
ghost use Rattle.sr_run.specs.declared.status.Status.TheVariants as status;

use crate::Status;
use sr_gen::make;
use sr_io::{Put, Sink};

/// Runs the command `make`: writes the capture of so many packets that follows from the number, and flushes. It reads nothing.
pub(crate) fn run_make<K: Sink>(number: u64, packets: u32, sink: &mut K) -> Status
    requires { (1 ≤ packets) × (packets ≤ most_packets) }
    ensures made { RunsMake number packets result (K.known sink.old) (K.known sink.new) }
    ensures quiet { WritesNothing result (K.known sink.old) (K.known sink.new) }
    ensures sink { Counts (result ≡ status.WriteFault) (K.known sink.old).faults (K.known sink.new).faults }
{
    match make(number, packets, sink) {
        Put::Failed => return Status::WriteFault,
        Put::All => {}
    }
    match sink.flush() {
        Put::Failed => Status::WriteFault,
        Put::All => Status::Done,
    }
}
