ghost use Rattle.std.specs.Prelude.{◌≡◌, true, reverse, IfOk};
ghost use Rattle.sr_law.specs.Final.{packets_of, same_packets, meets_final};

use crate::pairing::pair;
use sr_base::Packet;
use sr_law::{Line, Setup, same_packet};
use std::alloc::{AllocError, Global};

// The lines tell of these packets, in this order.
#[tactic(auto, using(crate::proofs::Telling::told_more, crate::proofs::Telling::told_none, crate::proofs::Telling::same_packet_true))]
fn tell_in_order(lines: &[Line], packets: &[Packet]) -> bool
    ensures { result ≡ true → packets_of (reverse lines.now) ≡ reverse packets.now }
{
    let mut next = 0;
    for line in lines {
        if let Some(packet) = line.packet() {
            if packets.len() <= next || !same_packet(&packets[next], &packet) {
                return false;
            }
            next += 1;
        }
    }
    next == packets.len()
}

// The packets that the lines tell of are these: in their order, as in a log of one's own, or else by how often each is there.
#[tactic(auto, using(crate::proofs::Telling::in_order_same))]
fn same_packets(lines: &[Line], packets: &[Packet]) -> bool
    ensures { result ≡ same_packets (packets_of (reverse lines.now)) packets.now }
{
    tell_in_order(lines, packets) || sr_law::same_packets(lines, packets)
}

// The first lines are there; the packets are those of the setup, each as often as there; and answers and held openers pair.
#[tactic(auto, unfolding(sr_law::specs::Final::meets_final))]
pub(crate) fn meets_final(alloc: Global, setup: &Setup, all: &[Line]) -> Result<bool, AllocError>
    ensures { IfOk result (λ met. met ≡ meets_final setup.now (reverse all.now)) }
{
    let pairs = pair(alloc, all)?;
    Ok(setup.pools.vips() <= all.len() && same_packets(all, &setup.packets) && pairs)
}
