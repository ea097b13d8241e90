ghost use Rattle.std.specs.Prelude.{◌≡◌, ◌≤◌, length};
ghost use Rattle.std.specs.Option.{ForSome};
ghost use Rattle.sr_io.specs.Faults.{Counts};
ghost use Rattle.sr_capture.specs.Capture.{most_records};
ghost use Rattle.sr_run.specs.One.{EndsOne, OneSays, one_text};
ghost use Rattle.sr_run.specs.Outside.{WritesNothing};
ghost use Rattle.sr_run.specs.Printing.{EndsPrinting};
ghost use Rattle.sr_run.specs.declared.status.Status.TheVariants as status;

use crate::Status;
use crate::print_log::print_log;
use sr_base::Packet;
use sr_capture::{Captured, read_capture};
use sr_io::{Sink, Source};
use std::alloc::Global;

/// Runs the command `one`: reads the whole capture, and then prints.
pub(crate) fn run_one<S: Source, K: Sink>(
    alloc: Global,
    vip: (u32, u16),
    servers: u8,
    source: &mut S,
    sink: &mut K,
) -> Status
    requires { 1 ≤ servers }
    ensures ends { EndsOne result }
    ensures says { ForSome (S.known source.old).left (λ bytes. OneSays result vip servers bytes (S.known source.new) (K.known sink.old) (K.known sink.new)) }
    ensures quiet { WritesNothing result (K.known sink.old) (K.known sink.new) }
    ensures source { Counts (result ≡ status.ReadFault) (S.known source.old).faults (S.known source.new).faults }
    ensures sink { Counts (result ≡ status.WriteFault) (K.known sink.old).faults (K.known sink.new).faults }
{
    match read_capture(alloc, &[vip], source) {
        Ok(captured) => print_captured(servers, &captured, sink),
        Err(why) => Status::from(why),
    }
}

// Prints what was kept of a capture.
fn print_captured<K: Sink>(servers: u8, captured: &Captured<Packet>, sink: &mut K) -> Status
    requires some { 1 ≤ servers }
    requires few { length captured.now.packets.items ≤ most_records }
    ensures { EndsPrinting result captured.now.ending (one_text servers captured.now.skips.items captured.now.packets.items) (K.known sink.old) (K.known sink.new) }
{
    match print_log(servers, &captured.skips, &captured.packets, sink) {
        Err(_) => Status::WriteFault,
        Ok(()) => match captured.ending {
            None => Status::Done,
            Some(why) => Status::Capture(why),
        },
    }
}
