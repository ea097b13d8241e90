/// The most captured bytes of a record.
pub const MOST_CAPTURED: u32 = 262_144;

/// The bytes of a record's header.
pub const RECORD_HEADER: usize = 16;

/// What the header of a record says, of one with no more captured bytes than a record may have.
#[derive(Clone, Copy, Debug, PartialEq, Eq)]
pub struct RecordHeader {
    /// When the record was captured, in whole milliseconds.
    pub ms: u64,
    /// How many captured bytes it has.
    pub size: usize,
}
