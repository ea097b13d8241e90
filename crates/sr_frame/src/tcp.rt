ghost use Rattle.std.specs.Prelude.{◌≡◌, ◌≤◌, length};
ghost use Rattle.sr_frame.specs.Tcp.{is_set, kind, segment_seen};

use crate::vip::number_of;
use crate::{Seen, Skip};
use byteorder::{BigEndian, ByteOrder};
use sr_base::{Key, Kind};

// The bytes of a segment's header up to its flags (RFC 9293, section 3.1).
const UP_TO_FLAGS: usize = 14;

const FIN: u8 = 1;

const SYN: u8 = 2;

const RST: u8 = 4;

const ACK: u8 = 16;

/// What is seen in a TCP segment between these IPv4 addresses.
#[tactic(auto, unfolding(crate::specs::Tcp::segment_seen))]
pub fn see_segment(source: u32, destination: u32, segment: &[u8], vips: &[(u32, u16)]) -> Seen
    requires { length vips.now ≤ 16 }
    ensures { result ≡ segment_seen source destination segment.now vips.now }
{
    if segment.len() < UP_TO_FLAGS {
        return Seen::Skipped(Skip::Short);
    }
    let port = BigEndian::read_u16(segment);
    let kind = kind_of(segment[13]);
    match number_of(vips, destination, BigEndian::read_u16(&segment[2..])) {
        Some(vip) => Seen::Packet {
            key: Key {
                vip,
                ip: source,
                port,
            },
            kind,
        },
        None => Seen::Skipped(Skip::NotVip),
    }
}

// What a segment with these flags is to its connection.
fn kind_of(flags: u8) -> Kind
    ensures { result ≡ kind flags }
{
    if has(flags, FIN) || has(flags, RST) {
        Kind::Ending
    } else if has(flags, SYN) && !has(flags, ACK) {
        Kind::Opener
    } else {
        Kind::Carry
    }
}

// Whether a flag is set.
fn has(flags: u8, flag: u8) -> bool
    ensures { result ≡ is_set flag flags }
{
    flags & flag != 0
}
