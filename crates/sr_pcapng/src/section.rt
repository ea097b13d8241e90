ghost use Rattle.std.specs.Prelude.{◌≡◌, ◌≢◌, ◌+◌, ◌<◌, ◌≤◌, ◌++◌, ◌∷◌, [], length, Err, Some, None, IfOk, IsOk, is_some};
ghost use Rattle.sr_pcapng.specs.Front.{endian_of, front_of, front_in, front_sized, header_of, header_in, packet_of, packet_sized, is_bad, padded, HasSize, HasRoom, most_captured, most_interfaces};
ghost use Rattle.sr_pcapng.specs.declared.stop.Stop.TheVariants.{ReadFault};

use crate::endian::Endian;
use crate::front::Front;
use crate::interface::Interface;
use crate::packet_head::PacketHead;
use crate::stop::Stop;
use std::alloc::{AllocError, Global};
use std::marker::Model;

// The type of a section header, which is the same in both byte orders.
const SECTION_HEADER: u32 = 0x0a0d_0d0a;

// The magic of a section.
const MAGIC: u32 = 0x1a2b_3c4d;

// The most interfaces of a section.
const MOST_INTERFACES: usize = 1_024;

/// The most captured bytes of a packet.
pub const MOST_CAPTURED: u32 = 262_144;

/// The section that is read: the byte order of its numbers, and its interfaces. None has begun before the first section header.
#[derive(Debug, Drop)]
pub struct Section {
    endian: Option<Endian>,
    interfaces: Vec<Interface>,
}

impl Model for Section {
    ghost use Rattle.std.specs.Prelude.{◌≤◌, vec_len, vec_capacity};
    ghost use Rattle.sr_pcapng.specs.Front.{SectionView, most_interfaces};

    ghost Value = { SectionView };

    ghost view = { λ s. record { endian = s.endian; interfaces = s.interfaces.items } };

    ghost invariant = { λ s. (vec_len s.interfaces ≤ most_interfaces) × (most_interfaces ≤ vec_capacity s.interfaces) };
}

impl Section {
    /// No section, and room for its interfaces.
    pub fn new(alloc: Global) -> Result<Section, AllocError>
        ensures { IfOk result (λ s. s ≡ record { endian = None; interfaces = [] }) }
    {
        Ok(Section {
            endian: None,
            interfaces: Vec::with_capacity(alloc, MOST_INTERFACES)?,
        })
    }

    /// The byte order; before a section no number is read.
    pub fn endian(&self) -> Endian
        ensures { result ≡ endian_of self.now }
    {
        self.endian.unwrap_or(Endian::Big)
    }

    /// Whether a section has begun.
    pub fn has_begun(&self) -> bool
        ensures { result ≡ is_some self.now.endian }
    {
        self.endian.is_some()
    }

    /// Begins another section, which has no interfaces.
    pub fn begin(&mut self, endian: Endian)
        ensures { self.new ≡ record { endian = Some endian; interfaces = [] } }
    {
        self.endian = Some(endian);
        self.interfaces.clear();
    }

    /// Adds an interface, for which there is room.
    pub fn add(&mut self, interface: Interface)
        requires { length self.old.interfaces < most_interfaces }
        ensures { self.new ≡ record { endian = self.old.endian; interfaces = self.old.interfaces ++ interface ∷ [] } }
    {
        match self.interfaces.push(interface) {
            Ok(()) => {}
            Err(_) => unreachable!(),
        }
    }

    /// What a block is, by its first eight bytes, or by all that there are. The error is the first check that fails.
    #[tactic(auto, unfolding(crate::specs::Front::front_of))]
    pub fn front(&self, offset: u64, bytes: &[u8]) -> Result<Front, Stop>
        requires { length bytes.now ≤ 8 }
        ensures exact { result ≡ front_of self.now offset bytes.now }
        ensures judged { result ≢ Err ReadFault }
        ensures fits { IfOk result HasSize }
        ensures whole { IsOk result → 8 ≤ length bytes.now }
        ensures room { IfOk result (λ f. HasRoom f (length self.now.interfaces)) }
    {
        if bytes.len() < 4 {
            return Err(Stop::Truncated { offset });
        }
        if Endian::Big.read_u32(bytes) == SECTION_HEADER {
            if bytes.len() < 8 {
                return Err(Stop::Truncated { offset });
            }
            return Ok(Front::Section);
        }
        match self.endian {
            Some(endian) => front_in(endian, self.interfaces.len(), offset, bytes),
            None => Err(Stop::Block { offset }),
        }
    }

    /// The packet of a block of this length, by the 20 bytes after the length, or by all that there are.
    #[tactic(auto, unfolding(crate::specs::Front::packet_of))]
    pub fn packet(
        &self,
        endian: Endian,
        offset: u64,
        size: u32,
        bytes: &[u8],
    ) -> Result<PacketHead, Stop>
        ensures exact { result ≡ packet_of endian self.now.interfaces offset size bytes.now }
        ensures judged { result ≢ Err ReadFault }
        ensures fits { IfOk result (λ h. (h.captured ≤ most_captured) × (32 + h.captured ≤ size)) }
    {
        if bytes.len() < 4 {
            return Err(Stop::Truncated { offset });
        }
        match self.interfaces.get(endian.read_u32(bytes) as usize) {
            Some(interface) => {
                if bytes.len() < 16 {
                    return Err(Stop::Truncated { offset });
                }
                let high = endian.read_u32(&bytes[4..]) as u64;
                let low = endian.read_u32(&bytes[8..]) as u64;
                let captured = endian.read_u32(&bytes[12..]);
                packet_sized(offset, size, captured, *interface, high * (1 << 32) + low)
            }
            None => Err(Stop::Block { offset }),
        }
    }
}

// Whether no block of at least so many bytes has this length.
fn is_bad(least: u32, size: u32) -> bool
    ensures { result ≡ is_bad least size }
{
    size % 4 != 0 || size < least
}

/// A number of bytes, rounded up to a multiple of 4.
pub fn padded(bytes: u32) -> u64
    ensures { result ≡ padded bytes }
{
    (bytes as u64 + 3) / 4 * 4
}

// What a block in a section of this byte order is.
#[tactic(auto, unfolding(crate::specs::Front::front_in))]
fn front_in(endian: Endian, interfaces: usize, offset: u64, bytes: &[u8]) -> Result<Front, Stop>
    requires { 4 ≤ length bytes.now }
    ensures exact { result ≡ front_in endian interfaces offset bytes.now }
    ensures judged { result ≢ Err ReadFault }
    ensures fits { IfOk result HasSize }
    ensures whole { IsOk result → 8 ≤ length bytes.now }
    ensures room { IfOk result (λ f. HasRoom f interfaces) }
{
    let kind = endian.read_u32(bytes);
    if kind == 2 || kind == 3 {
        return Err(Stop::Block { offset });
    }
    if bytes.len() < 8 {
        return Err(Stop::Truncated { offset });
    }
    front_sized(interfaces, offset, kind, endian.read_u32(&bytes[4..]))
}

// What a block of this type is, by its length.
#[tactic(auto, unfolding(crate::specs::Front::front_sized))]
fn front_sized(interfaces: usize, offset: u64, kind: u32, size: u32) -> Result<Front, Stop>
    ensures exact { result ≡ front_sized interfaces offset kind size }
    ensures judged { result ≢ Err ReadFault }
    ensures fits { IfOk result HasSize }
    ensures room { IfOk result (λ f. HasRoom f interfaces) }
{
    match kind {
        1 if is_bad(20, size) => Err(Stop::Block { offset }),
        1 if interfaces < MOST_INTERFACES => Ok(Front::Interface { size }),
        1 => Err(Stop::TooMany { offset }),
        6 if is_bad(32, size) => Err(Stop::Block { offset }),
        6 => Ok(Front::Packet { size }),
        _ if is_bad(12, size) => Err(Stop::Block { offset }),
        _ => Ok(Front::Other { size }),
    }
}

/// The byte order and the length of a section header, by the four bytes of its length and the 16 bytes after them, or all that there are.
#[tactic(auto, unfolding(crate::specs::Front::header_of))]
pub fn section_header(offset: u64, size: &[u8], bytes: &[u8]) -> Result<(Endian, u32), Stop>
    requires { 4 ≤ length size.now }
    ensures exact { result ≡ header_of offset size.now bytes.now }
    ensures judged { result ≢ Err ReadFault }
    ensures fits { IfOk result (λ h. 28 ≤ h.1) }
{
    if bytes.len() < 4 {
        return Err(Stop::Truncated { offset });
    }
    if Endian::Big.read_u32(bytes) == MAGIC {
        return header_in(Endian::Big, offset, size, bytes);
    }
    if Endian::Little.read_u32(bytes) == MAGIC {
        return header_in(Endian::Little, offset, size, bytes);
    }
    Err(Stop::Magic)
}

// The same of a section header in this byte order.
#[tactic(auto, unfolding(crate::specs::Front::header_in))]
fn header_in(endian: Endian, offset: u64, size: &[u8], bytes: &[u8]) -> Result<(Endian, u32), Stop>
    requires size { 4 ≤ length size.now }
    requires magic { 4 ≤ length bytes.now }
    ensures exact { result ≡ header_in endian offset size.now bytes.now }
    ensures judged { result ≢ Err ReadFault }
    ensures fits { IfOk result (λ h. 28 ≤ h.1) }
{
    let size = endian.read_u32(size);
    if is_bad(28, size) {
        return Err(Stop::Block { offset });
    }
    if bytes.len() < 6 {
        return Err(Stop::Truncated { offset });
    }
    if endian.read_u16(&bytes[4..]) != 1 {
        return Err(Stop::Major);
    }
    Ok((endian, size))
}

// A packet of this interface, captured at this time, with so many captured bytes.
#[tactic(auto, unfolding(crate::specs::Front::packet_sized))]
fn packet_sized(
    offset: u64,
    size: u32,
    captured: u32,
    interface: Interface,
    time: u64,
) -> Result<PacketHead, Stop>
    ensures exact { result ≡ packet_sized offset size captured interface time }
    ensures judged { result ≢ Err ReadFault }
    ensures fits { IfOk result (λ h. (h.captured ≤ most_captured) × (32 + h.captured ≤ size)) }
{
    if captured > MOST_CAPTURED {
        return Err(Stop::TooLong {
            offset,
            length: captured,
        });
    }
    if 32 + padded(captured) > size as u64 {
        return Err(Stop::Block { offset });
    }
    Ok(PacketHead {
        ms: interface.milliseconds(time),
        link: interface.link,
        captured,
    })
}
