use sr_base::Key;

/// How the controller's turns end once no pipe has a packet in hand.
#[derive(Clone, Copy, Debug, PartialEq, Eq)]
pub enum Settled {
    /// Nothing is left to do.
    Quiet,
    /// An update waits for this pending key, the first such, which has no plan.
    Waiting {
        /// The key.
        key: Key,
    },
    /// There was no memory for what is to be done.
    Memory,
}
