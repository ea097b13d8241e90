use crate::{Key, Kind};

/// A packet as the load balancer sees it.
#[derive(Clone, Copy, Debug, PartialEq, Eq)]
pub struct Packet {
    /// The position of its record in the capture, from 1.
    pub number: u32,
    /// Whose packet it is.
    pub key: Key,
    /// What it is to its connection.
    pub kind: Kind,
}
