use crate::Skip;
use sr_base::{Key, Kind};

/// What is seen in a frame.
#[derive(Clone, Copy, Debug, PartialEq, Eq)]
pub enum Seen {
    /// A segment to a virtual address.
    Packet {
        /// Which virtual address, and the client's address and port.
        key: Key,
        /// What the segment is to its connection.
        kind: Kind,
    },
    /// Nothing for the load balancer.
    Skipped(Skip),
}
