//! What the load balancer sees in a captured frame: a TCP segment to one of its virtual addresses, with the client's side of the
//! connection and what the segment is to it, or the first reason why the frame is skipped.
//!
//! The checks go outside in, one file for each layer: `ethernet` (tags, type), `ipv4` (RFC 791), `tcp` (RFC 9293). `frame` picks the
//! layer that the link type names.
#![tactic(auto)]

mod ethernet;
mod frame;
mod ipv4;
mod seen;
mod skip;
mod tcp;
mod vip;

pub use frame::read;
pub use seen::Seen;
pub use skip::Skip;
