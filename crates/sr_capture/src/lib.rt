//! Reads a whole capture, classic or pcapng: which form it has is told by its first four bytes. Of each record the packet to a virtual address is
//! kept, or why it is skipped.
//!
//! `read_capture` is the one call. Whatever pieces the source cuts its bytes into, what it gives is what the definition `capture_of` reads off
//! the list of bytes.
#![tactic(auto)]

mod capture_reader;
mod capture_refusal;
mod captured;
mod clock;
mod keep;
mod kept;
mod reading;
mod record;

pub use capture_refusal::CaptureRefusal;
pub use captured::Captured;
pub use kept::Kept;
pub use reading::read_capture;
pub use sr_pcap::BeginRefusal;
