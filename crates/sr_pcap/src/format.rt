ghost use Rattle.std.specs.Prelude.{◌≡◌, ◌≤◌, length};
ghost use Rattle.sr_pcap.specs.Format.{IsJudged, IsJudgedIn, magic_of, format_of, format_in, header_of, milliseconds, captured_length};
ghost use Rattle.sr_pcap.specs.RecordHeader.{HeaderOf};

use crate::endian::Endian;
use crate::record_header::{MOST_CAPTURED, RECORD_HEADER, RecordHeader};
use crate::resolution::Resolution;
use crate::{BeginRefusal, Next};

/// The bytes of a capture's header.
pub const CAPTURE_HEADER: usize = 24;

// The link types that are read.
const ETHERNET: u32 = 1;

const RAW_IP: u32 = 101;

/// What a capture's header says of its records.
#[derive(Clone, Copy, Debug, PartialEq, Eq)]
pub struct Format {
    /// The byte order of all its numbers.
    pub endian: Endian,
    /// What the fractions of seconds count.
    pub resolution: Resolution,
    /// The link type of its frames: 1 (Ethernet) or 101 (raw IP).
    pub link: u16,
}

impl Format {
    /// The format of a capture that begins with these bytes. The error is the first check that fails.
    #[tactic(auto, unfolding(crate::specs::Format::header_of))]
    pub fn of_capture(bytes: &[u8]) -> Result<Format, BeginRefusal>
        ensures format { result ≡ header_of bytes.now }
        ensures judged { IsJudgedIn result (length bytes.now) }
    {
        if bytes.len() < CAPTURE_HEADER {
            return Err(BeginRefusal::Truncated { offset: 0 });
        }
        Format::of_header(&bytes[..CAPTURE_HEADER])
    }

    // The format that the 24 bytes of a header spell.
    #[tactic(auto, unfolding(crate::specs::Format::format_of))]
    fn of_header(header: &[u8]) -> Result<Format, BeginRefusal>
        requires { 24 ≤ length header.now }
        ensures format { result ≡ format_of header.now }
        ensures judged { IsJudged result }
    {
        match magic(header) {
            Some((endian, resolution)) => Format::of_version(endian, resolution, header),
            None => Err(BeginRefusal::Magic),
        }
    }

    // The format of a header with this magic.
    #[tactic(auto, unfolding(crate::specs::Format::format_in))]
    fn of_version(
        endian: Endian,
        resolution: Resolution,
        header: &[u8],
    ) -> Result<Format, BeginRefusal>
        requires { 24 ≤ length header.now }
        ensures format { result ≡ format_in endian resolution header.now }
        ensures judged { IsJudged result }
    {
        if endian.read_u16(&header[4..]) != 2 {
            return Err(BeginRefusal::Major);
        }
        let link = endian.read_u32(&header[20..]) % (1 << 16);
        if link != ETHERNET && link != RAW_IP {
            return Err(BeginRefusal::LinkType);
        }
        Ok(Format {
            endian,
            resolution,
            link: link as u16,
        })
    }

    /// The header of the record that these bytes begin with, the first of which stands at this offset; or why no record does that isn't too long.
    pub fn record_header(&self, offset: u64, bytes: &[u8]) -> Result<RecordHeader, Next>
        ensures { HeaderOf result self.now offset bytes.now }
    {
        if bytes.is_empty() {
            return Err(Next::End);
        }
        if bytes.len() < RECORD_HEADER {
            return Err(Next::Truncated { offset });
        }
        let header = &bytes[..RECORD_HEADER];
        let length = self.captured_length(header);
        if length > MOST_CAPTURED {
            return Err(Next::TooLong { offset, length });
        }
        Ok(RecordHeader {
            ms: self.milliseconds(header),
            size: length as usize,
        })
    }

    // When a record with this header was captured, in whole milliseconds.
    fn milliseconds(&self, header: &[u8]) -> u64
        requires { 16 ≤ length header.now }
        ensures { result ≡ milliseconds self.now header.now }
    {
        let seconds = self.endian.read_u32(header) as u64;
        let fraction = self.endian.read_u32(&header[4..]);
        seconds * 1_000 + (fraction / self.resolution.per_millisecond()) as u64
    }

    // How many captured bytes a record with this header has.
    fn captured_length(&self, header: &[u8]) -> u32
        requires { 16 ≤ length header.now }
        ensures { result ≡ captured_length self.now header.now }
    {
        self.endian.read_u32(&header[8..])
    }
}

// The byte order and the resolution of a header's magic, if it is one.
fn magic(header: &[u8]) -> Option<(Endian, Resolution)>
    requires { 4 ≤ length header.now }
    ensures { result ≡ magic_of header.now }
{
    match Resolution::of_magic(Endian::Big.read_u32(header)) {
        Some(resolution) => Some((Endian::Big, resolution)),
        None => match Resolution::of_magic(Endian::Little.read_u32(header)) {
            Some(resolution) => Some((Endian::Little, resolution)),
            None => None,
        },
    }
}
