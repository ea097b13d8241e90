/// What a line can break, in the order in which an auditor names it.
#[derive(Clone, Copy, Debug, PartialEq, Eq)]
pub enum Clause {
    /// It is no text of a line.
    Text,
    /// Ticks rise, updates go in whole groups, places are taken and freed.
    Order,
    /// The server is the one that the connection's hash picks from the pool.
    Server,
    /// Packets of an open connection use the pool of its opening (SilkRoad, SIGCOMM 2017: per-connection consistency).
    Same,
    /// A connection that is opened after a switch uses that pool or a later one.
    Newer,
    /// A version is given again only when nothing holds it.
    Number,
    /// A packet was held, dropped or sent, and a change refused, only for a reason.
    Cause,
    /// A connection is over only after it was quiet.
    Retire,
    /// Each packet has one final line.
    Final,
}
