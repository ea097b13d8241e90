ghost use Rattle.std.specs.Prelude.{◌≡◌, ◌≤◌, length};
ghost use Rattle.sr_frame.specs.Ethernet.{is_tag, ethernet_seen, tagged_seen, untagged_seen};

use crate::ipv4::see_packet;
use crate::{Seen, Skip};
use byteorder::{BigEndian, ByteOrder};

// The bytes of a header without tags: two addresses and the type.
const HEADER: usize = 14;

const IPV4: u16 = 0x0800;

const VLAN: u16 = 0x8100;

const SERVICE_VLAN: u16 = 0x88a8;

/// What is seen in an Ethernet frame, of which up to two tags stand before the type.
#[tactic(auto, unfolding(crate::specs::Ethernet::ethernet_seen))]
pub fn see_frame(frame: &[u8], vips: &[(u32, u16)]) -> Seen
    requires { length vips.now ≤ 16 }
    ensures { result ≡ ethernet_seen frame.now vips.now }
{
    if frame.len() < HEADER {
        return Seen::Skipped(Skip::Short);
    }
    see_tagged(2, &frame[12..], vips)
}

// What is seen in a frame from its type on, where up to so many tags may stand before that of the packet.
#[tactic(auto, unfolding(crate::specs::Ethernet::tagged_seen))]
fn see_tagged(tags: u8, from_type: &[u8], vips: &[(u32, u16)]) -> Seen
    requires header { 2 ≤ length from_type.now }
    requires vips { length vips.now ≤ 16 }
    ensures { result ≡ tagged_seen tags from_type.now vips.now }
{
    if tags == 0 || !has_tag(from_type) {
        return see_untagged(from_type, vips);
    }
    if from_type.len() < 6 {
        return Seen::Skipped(Skip::Short);
    }
    see_tagged(tags - 1, &from_type[4..], vips)
}

// Whether a tag stands here.
fn has_tag(from_type: &[u8]) -> bool
    requires { 2 ≤ length from_type.now }
    ensures { result ≡ is_tag from_type.now }
{
    let kind = BigEndian::read_u16(from_type);
    kind == VLAN || kind == SERVICE_VLAN
}

// What is seen in a frame from its type on, which is the packet's.
#[tactic(auto, unfolding(crate::specs::Ethernet::untagged_seen))]
fn see_untagged(from_type: &[u8], vips: &[(u32, u16)]) -> Seen
    requires header { 2 ≤ length from_type.now }
    requires vips { length vips.now ≤ 16 }
    ensures { result ≡ untagged_seen from_type.now vips.now }
{
    if BigEndian::read_u16(from_type) != IPV4 {
        return Seen::Skipped(Skip::NotIpv4);
    }
    see_packet(&from_type[2..], vips)
}
