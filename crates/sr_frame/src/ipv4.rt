ghost use Rattle.std.specs.Prelude.{◌≡◌, ◌≤◌, length};
ghost use Rattle.sr_frame.specs.Ipv4.{packet_seen, header_seen, payload_seen};

use crate::tcp::see_segment;
use crate::{Seen, Skip};
use byteorder::{BigEndian, ByteOrder};

// The bytes of a header without options (RFC 791, section 3.1).
const HEADER: usize = 20;

const TCP: u8 = 6;

/// What is seen in an IP packet.
#[tactic(auto, unfolding(crate::specs::Ipv4::packet_seen))]
pub fn see_packet(packet: &[u8], vips: &[(u32, u16)]) -> Seen
    requires { length vips.now ≤ 16 }
    ensures { result ≡ packet_seen packet.now vips.now }
{
    if packet.is_empty() {
        return Seen::Skipped(Skip::Short);
    }
    if packet[0] / 16 != 4 {
        return Seen::Skipped(Skip::NotIpv4);
    }
    if packet.len() < HEADER {
        return Seen::Skipped(Skip::Short);
    }
    see_header(packet, vips)
}

// What is seen in an IPv4 packet with at least the header's fixed bytes.
#[tactic(auto, unfolding(crate::specs::Ipv4::header_seen))]
fn see_header(packet: &[u8], vips: &[(u32, u16)]) -> Seen
    requires header { 20 ≤ length packet.now }
    requires vips { length vips.now ≤ 16 }
    ensures { result ≡ header_seen packet.now vips.now }
{
    let header = packet[0] as usize % 16 * 4;
    if header < HEADER || header > packet.len() {
        return Seen::Skipped(Skip::Short);
    }
    let total = BigEndian::read_u16(&packet[2..]) as usize;
    let size = if total == 0 { packet.len() } else { total };
    if size < header {
        return Seen::Skipped(Skip::Short);
    }
    see_payload(packet, &packet[header..size.min(packet.len())], vips)
}

// What is seen in an IPv4 packet with this header and these bytes after it.
#[tactic(auto, unfolding(crate::specs::Ipv4::payload_seen))]
fn see_payload(header: &[u8], payload: &[u8], vips: &[(u32, u16)]) -> Seen
    requires header { 20 ≤ length header.now }
    requires vips { length vips.now ≤ 16 }
    ensures { result ≡ payload_seen header.now payload.now vips.now }
{
    if header[9] != TCP {
        return Seen::Skipped(Skip::NotTcp);
    }
    if BigEndian::read_u16(&header[6..]) % (1 << 13) != 0 {
        return Seen::Skipped(Skip::Fragment);
    }
    let source = BigEndian::read_u32(&header[12..]);
    let destination = BigEndian::read_u32(&header[16..]);
    see_segment(source, destination, payload, vips)
}
