ghost use Rattle.std.specs.Prelude.{◌≡◌, ◌≤◌, reverse, length, count_by, option_to_list, if◌then◌else◌};
ghost use Rattle.std.specs.List.{list_all};
ghost use Rattle.sr_law.specs.Final.{packet_by, packets_of, same_kind, same_packet, is_as_often, same_packets};

use crate::Line;
use sr_base::{Kind, Packet};

// Two kinds are one.
fn same_kind(a: Kind, b: Kind) -> bool
    ensures { result ≡ same_kind a b }
{
    match (a, b) {
        (Kind::Opener, Kind::Opener) => true,
        (Kind::Carry, Kind::Carry) => true,
        (Kind::Ending, Kind::Ending) => true,
        _ => false,
    }
}

/// Two packets are one.
pub fn same_packet(a: &Packet, b: &Packet) -> bool
    ensures { result ≡ same_packet a.now b.now }
{
    a.number == b.number && a.key.same(b.key) && same_kind(a.kind, b.kind)
}

// The line tells of this packet.
fn tells_of(packet: &Packet, line: &Line) -> bool
    ensures { count_by (same_packet packet.now) (option_to_list (packet_by line.now)) ≡ (if result then 1 else 0) }
{
    match line.packet() {
        Some(told) => same_packet(packet, &told),
        None => false,
    }
}

// How often the lines tell of this packet.
#[tactic(auto, using(crate::proofs::Newest::newest_more, crate::proofs::Told::count_more))]
fn count_told(lines: &[Line], packet: &Packet) -> usize
    ensures value { result ≡ count_by (same_packet packet.now) (packets_of (reverse lines.now)) }
    ensures bound { result ≤ length lines.now }
{
    let mut count = 0;
    for line in lines {
        if tells_of(packet, line) {
            count += 1;
        }
    }
    count
}

// How often this packet is among these.
fn count_among(packets: &[Packet], packet: &Packet) -> usize
    ensures { result ≡ count_by (same_packet packet.now) packets.now }
{
    packets
        .iter()
        .filter(|other| same_packet(packet, other))
        .count()
}

// The lines tell of this packet as often as it is among these.
#[tactic(auto, unfolding(crate::specs::Final::is_as_often))]
fn is_as_often(lines: &[Line], packets: &[Packet], packet: &Packet) -> bool
    ensures { result ≡ is_as_often (packets_of (reverse lines.now)) packets.now packet.now }
{
    count_told(lines, packet) == count_among(packets, packet)
}

// The same of the line's packet.
fn told_as_often(lines: &[Line], packets: &[Packet], line: &Line) -> bool
    ensures { result ≡ list_all (is_as_often (packets_of (reverse lines.now)) packets.now) (option_to_list (packet_by line.now)) }
{
    match line.packet() {
        Some(told) => is_as_often(lines, packets, &told),
        None => true,
    }
}

// The same of each packet that the lines tell of.
#[tactic(auto, using(crate::proofs::Newest::newest_more, crate::proofs::Told::all_more))]
fn all_told_as_often(lines: &[Line], packets: &[Packet]) -> bool
    ensures { result ≡ list_all (is_as_often (packets_of (reverse lines.now)) packets.now) (packets_of (reverse lines.now)) }
{
    let mut all = true;
    for line in lines {
        if !told_as_often(lines, packets, line) {
            all = false;
        }
    }
    all
}

// The same of each of these packets.
fn all_as_often(lines: &[Line], packets: &[Packet]) -> bool
    ensures { result ≡ list_all (is_as_often (packets_of (reverse lines.now)) packets.now) packets.now }
{
    packets
        .iter()
        .all(|packet| is_as_often(lines, packets, packet))
}

/// The packets that the lines tell of are these.
pub fn same_packets(lines: &[Line], packets: &[Packet]) -> bool
    ensures { result ≡ same_packets (packets_of (reverse lines.now)) packets.now }
{
    all_told_as_often(lines, packets) && all_as_often(lines, packets)
}
