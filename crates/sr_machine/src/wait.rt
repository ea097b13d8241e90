use crate::{PoolUpdate, Put};
use sr_base::{Key, Phase, Version};

/// What the controller lets each packet in flight pass for, and takes the reports in the rings.
#[derive(Clone, Copy)]
pub enum Wait {
    /// A reserved place is to be made live or given up.
    Judge(Put),
    /// An entry has become live.
    Live(Put),
    /// A connection's entry is gone.
    Retire(Key),
    /// An update came to a phase, and its word was stored.
    Comes {
        /// The update.
        update: PoolUpdate,
        /// The phase that the word tells.
        phase: Phase,
    },
    /// A version number that no connection has is to be free again.
    Release {
        /// The virtual address.
        vip: u8,
        /// The version.
        version: Version,
    },
}
