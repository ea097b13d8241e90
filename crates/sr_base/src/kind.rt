/// What a TCP segment is to its connection, by its flags (RFC 9293).
#[derive(Clone, Copy, Debug, PartialEq, Eq, PartialOrd, Ord, Hash)]
pub enum Kind {
    /// It opens one: SYN set; ACK, RST and FIN clear.
    Opener,
    /// It carries what an open one carries.
    Carry,
    /// It ends one: FIN or RST set.
    Ending,
}
