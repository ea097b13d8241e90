ghost use Rattle.std.specs.Prelude.{◌≡◌, ◌≢◌, ℕ, ◌+◌, ◌<◌, ◌≤◌, List, length, take, drop, Some, None, Err, IfOk, IfSome, option_map};
ghost use Rattle.sr_io.specs.Faults.{Counts};
ghost use Rattle.sr_io.specs.Window.{Pending};
ghost use Rattle.sr_pcapng.specs.Block.{no_packet, maybe_packet, block_at, last_fault, closed, section_block, interface_block, packet_block, other_block};
ghost use Rattle.sr_pcapng.specs.Front.{SectionView, most_captured, most_interfaces};
ghost use Rattle.sr_pcapng.specs.Reading.{Gives};
ghost use Rattle.sr_pcapng.specs.declared.stop.Stop.TheVariants.{ReadFault};

use crate::ahead::Ahead;
use crate::endian::Endian;
use crate::front::Front;
use crate::interface::{Interface, MICROSECONDS};
use crate::options::walk;
use crate::packet_head::PacketHead;
use crate::section::{Section, section_header};
use crate::stop::Stop;
use sr_io::Source;

/// Reads a block, whose first eight bytes, or all that there are, have been read: the packet that it carries, if it carries one, and how many
/// bytes it has. The captured bytes are put into the buffer `packet`.
pub fn read_block<S: Source>(
    source: &mut S,
    ahead: &mut Ahead,
    section: &mut Section,
    packet: &mut [u8],
    offset: u64,
    first: &[u8],
) -> Result<(Option<PacketHead>, u32), Stop>
    requires packet { length packet.old ≡ most_captured }
    requires first { length first.now ≤ 8 }
    ensures reads { (xs : List ℕ) → Pending ahead.old (S.known source.old).left (drop 8 xs) → first.now ≡ take 8 xs
        → Gives (λ r. maybe_packet section.new packet.new r.0 r.1) result (block_at section.old offset xs)
        (Pending ahead.new (S.known source.new).left) }
    ensures few { IfOk result (λ r. IfSome r.0 (λ head. head.captured ≤ most_captured)) }
    ensures faults { Counts (result ≡ Err ReadFault) (S.known source.old).faults (S.known source.new).faults }
{
    match section.front(offset, first)? {
        Front::Section => {
            let size = read_section(source, ahead, section, offset, &first[4..])?;
            Ok((None, size))
        }
        Front::Interface { size } => {
            read_interface(source, ahead, section, offset, size)?;
            Ok((None, size))
        }
        Front::Packet { size } => {
            let head = read_packet(source, ahead, section, packet, offset, size)?;
            Ok((Some(head), size))
        }
        Front::Other { size } => {
            read_other(source, ahead, section, offset, size)?;
            Ok((None, size))
        }
    }
}

// Reads a section header from the byte after its length on, and begins the section: how many bytes the block has.
fn read_section<S: Source>(
    source: &mut S,
    ahead: &mut Ahead,
    section: &mut Section,
    offset: u64,
    size: &[u8],
) -> Result<u32, Stop>
    requires size { 4 ≤ length size.now }
    ensures reads { (xs : List ℕ) → Pending ahead.old (S.known source.old).left xs →
        Gives (no_packet section.new) result (section_block offset size.now xs) (Pending ahead.new (S.known source.new).left) }
    ensures faults { Counts (result ≡ Err ReadFault) (S.known source.old).faults (S.known source.new).faults }
{
    let mut fields = [0; 16];
    let n = ahead.fill(source, &mut fields, 16)?;
    let (endian, size) = section_header(offset, size, &fields[..n])?;
    close(source, ahead, endian, offset, size, size as u64 - 28)?;
    section.begin(endian);
    Ok(size)
}

// Reads an interface description of this length from the byte after it on, and adds the interface to its section.
fn read_interface<S: Source>(
    source: &mut S,
    ahead: &mut Ahead,
    section: &mut Section,
    offset: u64,
    size: u32,
) -> Result<(), Stop>
    requires size { 20 ≤ size }
    requires room { length section.old.interfaces < most_interfaces }
    ensures reads { (xs : List ℕ) → Pending ahead.old (S.known source.old).left xs →
        Gives (λ _. no_packet section.new size) result (interface_block section.old offset size xs)
        (Pending ahead.new (S.known source.new).left) }
    ensures faults { Counts (result ≡ Err ReadFault) (S.known source.old).faults (S.known source.new).faults }
{
    let endian = section.endian();
    let mut fields = [0; 8];
    if ahead.fill(source, &mut fields, 8)? < 8 {
        return Err(Stop::Truncated { offset });
    }
    let link = endian.read_u16(&fields);
    let (resolution, more) = walk(source, ahead, endian, offset, size as u64 - 20)?;
    close(source, ahead, endian, offset, size, more)?;
    let resolution = resolution.unwrap_or(MICROSECONDS);
    section.add(Interface { link, resolution });
    Ok(())
}

// Reads an enhanced packet block of this length from the byte after it on. The captured bytes are put into the buffer `packet`.
fn read_packet<S: Source>(
    source: &mut S,
    ahead: &mut Ahead,
    section: &Section,
    packet: &mut [u8],
    offset: u64,
    size: u32,
) -> Result<PacketHead, Stop>
    requires packet { length packet.old ≡ most_captured }
    requires size { 32 ≤ size }
    ensures reads { (xs : List ℕ) → Pending ahead.old (S.known source.old).left xs →
        Gives (λ h. maybe_packet section.now packet.new (Some h) size) result (packet_block section.now offset size xs)
        (Pending ahead.new (S.known source.new).left) }
    ensures few { IfOk result (λ head. head.captured ≤ most_captured) }
    ensures faults { Counts (result ≡ Err ReadFault) (S.known source.old).faults (S.known source.new).faults }
{
    let endian = section.endian();
    ahead.ready(source, 20)?;
    let head = section.packet(endian, offset, size, ahead.front(20))?;
    ahead.pass(20);
    let captured = head.captured as usize;
    if ahead.fill(source, packet, captured)? < captured {
        return Err(Stop::Truncated { offset });
    }
    let more = size as u64 - 32 - head.captured as u64;
    close(source, ahead, endian, offset, size, more)?;
    Ok(head)
}

// Passes over a block of this length from the byte after it on.
fn read_other<S: Source>(
    source: &mut S,
    ahead: &mut Ahead,
    section: &Section,
    offset: u64,
    size: u32,
) -> Result<(), Stop>
    requires size { 12 ≤ size }
    ensures reads { (xs : List ℕ) → Pending ahead.old (S.known source.old).left xs →
        Gives (λ _. no_packet section.now size) result (other_block section.now offset size xs)
        (Pending ahead.new (S.known source.new).left) }
    ensures faults { Counts (result ≡ Err ReadFault) (S.known source.old).faults (S.known source.new).faults }
{
    close(
        source,
        ahead,
        section.endian(),
        offset,
        size,
        size as u64 - 12,
    )
}

// Passes over so many bytes, and reads the last length of a block.
fn close<S: Source>(
    source: &mut S,
    ahead: &mut Ahead,
    endian: Endian,
    offset: u64,
    size: u32,
    more: u64,
) -> Result<(), Stop>
    ensures closes { (xs : List ℕ) → Pending ahead.old (S.known source.old).left xs →
        Gives (λ _ rest. rest) result (closed endian offset size more xs) (Pending ahead.new (S.known source.new).left) }
    ensures faults { Counts (result ≡ Err ReadFault) (S.known source.old).faults (S.known source.new).faults }
{
    ahead.skip(source, more)?;
    ahead.ready(source, 4)?;
    match last_fault(endian, offset, size, ahead.front(4)) {
        Some(why) => Err(why),
        None => {
            ahead.pass(4);
            Ok(())
        }
    }
}

// What is wrong with the last length of a block, if anything is.
#[tactic(auto, unfolding(crate::specs::Block::last_fault))]
fn last_fault(endian: Endian, offset: u64, size: u32, bytes: &[u8]) -> Option<Stop>
    ensures exact { result ≡ last_fault endian offset size bytes.now }
    ensures judged { result ≢ Some ReadFault }
{
    if bytes.len() < 4 {
        return Some(Stop::Truncated { offset });
    }
    if endian.read_u32(bytes) != size {
        return Some(Stop::Block { offset });
    }
    None
}
