ghost use Rattle.std.specs.Prelude.{◌≡◌, ◌+◌, ◌*◌, ◌^◌, ◌<◌, ◌≤◌, ℕ, List, length};
ghost use Rattle.std.specs.List.{flat_map};
ghost use Rattle.sr_io.specs.Sink.{Writes, put_of};
ghost use Rattle.sr_capture.specs.Capture.{most_records};
ghost use Rattle.sr_run.specs.One.{one_text, opening_line, packet_line, packet_lines};
ghost use Rattle.sr_text.specs.LineText.{line_text, skip_text};

use sr_base::{Packet, Version};
use sr_frame::Skip;
use sr_hash::select;
use sr_io::{Sink, WriteFault};
use sr_law::{Line, Verdict};
use sr_text::{print, print_head, print_skip};

/// Prints the log of the command `one`: the skipped records, and the packets' lines over so many servers. It takes no memory, and flushes.
#[tactic(auto, unfolding(crate::specs::One::one_text))]
pub(crate) fn print_log<K: Sink>(
    servers: u8,
    skips: &[(u32, Skip)],
    packets: &[Packet],
    sink: &mut K,
) -> Result<(), WriteFault>
    requires some { 1 ≤ servers }
    requires few { length packets.now ≤ most_records }
    ensures { Writes (put_of result) (K.known sink.old) (K.known sink.new) (one_text servers skips.now packets.now) }
{
    print_head(sink).ok()?;
    print_skips(skips, sink)?;
    print_opening(sink)?;
    print_packets(servers, packets, sink)?;
    sink.flush().ok()
}

/// Prints the skipped records.
pub(crate) fn print_skips<K: Sink>(skips: &[(u32, Skip)], sink: &mut K) -> Result<(), WriteFault>
    ensures { Writes (put_of result) (K.known sink.old) (K.known sink.new) (flat_map skip_text skips.now) }
{
    for skip in skips {
        print_skip(skip.0, skip.1, sink).ok()?;
    }
    Ok(())
}

// Prints the line that gives the virtual address its first pool.
fn print_opening<K: Sink>(sink: &mut K) -> Result<(), WriteFault>
    ensures { Writes (put_of result) (K.known sink.old) (K.known sink.new) (line_text opening_line) }
{
    let opening = Line::Given {
        out: 1,
        vip: 0,
        version: Version::zero(),
        pool: 1,
    };
    print(&opening, sink).ok()
}

// Prints the packets' lines.
fn print_packets<K: Sink>(servers: u8, packets: &[Packet], sink: &mut K) -> Result<(), WriteFault>
    requires some { 1 ≤ servers }
    requires few { length packets.now ≤ most_records }
    ensures { Writes (put_of result) (K.known sink.old) (K.known sink.new) (flat_map line_text (packet_lines servers 2 packets.now)) }
{
    let mut tick = 2;
    for packet in packets {
        print(&line_of(servers, tick, packet), sink).ok()?;
        tick += 2;
    }
    Ok(())
}

// The line of a packet that entered at this tick.
fn line_of(servers: u8, tick: u64, packet: &Packet) -> Line
    requires some { 1 ≤ servers }
    requires few { tick + 1 < 2 ^ 64 }
    ensures { result ≡ packet_line servers tick packet.now }
{
    Line::Packet {
        number: packet.number,
        entered: tick,
        out: tick + 1,
        pipe: 0,
        key: packet.key,
        kind: packet.kind,
        verdict: Verdict::To {
            server: select(servers, packet.key) as u32,
            version: Version::zero(),
            pool: 1,
        },
    }
}
