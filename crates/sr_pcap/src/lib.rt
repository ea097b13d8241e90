//! Reads classic captures (pcap 2.4): a header of 24 bytes, then records, each of a header of 16 bytes and the captured bytes of a frame.
//! Both byte orders, microseconds and nanoseconds, Ethernet and raw IP.
//!
//! `Reader::begin` reads the header from a source, and `Reader::next` a record. Whatever pieces the source cuts its bytes into, they
//! answer what the definitions `header_of` and `next_at` read off the list of the bytes that are left.
#![tactic(auto)]

mod begin_refusal;
mod endian;
mod format;
mod next;
mod reader;
mod record_header;
mod resolution;

pub use begin_refusal::BeginRefusal;
pub use next::Next;
pub use reader::Reader;

#[cfg(test)]
mod tests;
