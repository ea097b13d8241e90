/// What a grace saw of a pipe.
#[derive(Clone, Copy, Debug, PartialEq, Eq)]
pub enum Saw {
    /// The pipe has passed.
    Passed,
    /// The pipe is at work on a packet that it took up before the grace's tick.
    NotYet {
        /// The pipe.
        pipe: u8,
        /// The tick at which it took up the packet.
        entered: u64,
    },
}
