use crate::{PoolUpdate, Put, Why};
use sr_base::{Key, Phase, Place};

/// What the controller stores.
#[derive(Clone, Copy)]
pub enum Store {
    /// This server is down.
    Down(u32),
    /// A server of an update's new version.
    Member {
        /// The update.
        update: PoolUpdate,
        /// The server's place in the pool, from 0.
        index: u8,
    },
    /// The head of an update's new version.
    Head(PoolUpdate),
    /// The word of an update's virtual address.
    Vip {
        /// The update.
        update: PoolUpdate,
        /// The phase that it tells from then on.
        phase: Phase,
    },
    /// A word of the transit filter is cleared.
    Filter {
        /// The update that is over.
        update: PoolUpdate,
        /// Which word, from 0.
        index: u32,
    },
    /// A key's reserved entry.
    Reserved(Put),
    /// A reserved entry becomes live, or is given up.
    Judge(Put),
    /// A place is emptied.
    Empty {
        /// Whose entry it was.
        key: Key,
        /// The place.
        place: Place,
        /// Why.
        why: Why,
    },
}
