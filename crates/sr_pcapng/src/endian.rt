ghost use Rattle.std.specs.Prelude.{◌≡◌, ◌≤◌, length};
ghost use Rattle.sr_pcapng.specs.Endian.{number};

use byteorder::{BigEndian, ByteOrder, LittleEndian};

/// The order of the bytes of a section's numbers.
#[derive(Clone, Copy, Debug, PartialEq, Eq)]
pub enum Endian {
    /// The highest byte first.
    Big,
    /// The lowest byte first.
    Little,
}

impl Endian {
    /// The number in the first two bytes.
    pub fn read_u16(self, bytes: &[u8]) -> u16
        requires { 2 ≤ length bytes.now }
        ensures { result ≡ number self 2 bytes.now }
    {
        match self {
            Endian::Big => BigEndian::read_u16(bytes),
            Endian::Little => LittleEndian::read_u16(bytes),
        }
    }

    /// The number in the first four bytes.
    pub fn read_u32(self, bytes: &[u8]) -> u32
        requires { 4 ≤ length bytes.now }
        ensures { result ≡ number self 4 bytes.now }
    {
        match self {
            Endian::Big => BigEndian::read_u32(bytes),
            Endian::Little => LittleEndian::read_u32(bytes),
        }
    }
}
