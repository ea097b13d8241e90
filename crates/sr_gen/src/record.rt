ghost use Rattle.std.specs.Prelude.{◌≡◌, ◌<◌};
ghost use Rattle.sr_gen.specs.Capture.{most_packets};
ghost use Rattle.sr_gen.specs.Record.{flags_of, record_with};

use crate::connection::Connection;
use crate::turns::round;
use byteorder::{BigEndian, ByteOrder, LittleEndian};

/// How many bytes a record has: 16 of its header, 20 of an IPv4 header and 20 of a TCP header.
pub const LENGTH: usize = 56;

// A record with times, addresses, client's port and flags left at 0.
const BLANK: [u8; LENGTH] = [
    0, 0, 0, 0, 0, 0, 0, 0, 40, 0, 0, 0, 40, 0, 0, 0, // the record's header
    0x45, 0, 0, 40, 0, 0, 0, 0, 64, 6, 0, 0, 0, 0, 0, 0, 0, 0, 0, 0, // IPv4
    0, 0, 0, 80, 0, 0, 0, 0, 0, 0, 0, 0, 0x50, 0, 0, 0, 0, 0, 0, 0, // TCP
];

const SYN: u8 = 0x02;

const ACK: u8 = 0x10;

const FIN_ACK: u8 = 0x11;

/// The record of packet `t`, from 0, of this connection.
#[tactic(auto, unfolding(crate::specs::Record::record_with))]
pub fn record(t: u32, connection: Connection) -> [u8; LENGTH]
    requires { t < most_packets }
    ensures { result ≡ record_with t connection }
{
    let microseconds = t * 100;
    let mut bytes = BLANK;
    LittleEndian::write_u32(&mut bytes, microseconds / 1_000_000);
    LittleEndian::write_u32(&mut bytes[4..], microseconds % 1_000_000);
    BigEndian::write_u32(&mut bytes[28..], connection.source);
    BigEndian::write_u32(&mut bytes[32..], connection.vip);
    BigEndian::write_u16(&mut bytes[36..], connection.port);
    bytes[49] = flags(round(t));
    bytes
}

// The flags of a connection's packet in this round: its first of ten packets opens it, its last ends it.
fn flags(round: u32) -> u8
    ensures { result ≡ flags_of round }
{
    match round {
        0 => SYN,
        9 => FIN_ACK,
        _ => ACK,
    }
}
