use crate::HeldOpener;
use sr_base::{Key, Place};

/// What a key is put into a place for.
#[derive(Clone, Copy)]
pub enum Aim {
    /// The key is pending.
    Pending,
    /// An opener of the key is held, the first of all.
    Held(HeldOpener),
    /// The entry moves, so that another key finds a slot.
    Move {
        /// The slot that it leaves.
        from: Place,
        /// The key that the slot is for.
        planned: Key,
    },
}

/// A key is put into a place.
#[derive(Clone, Copy)]
pub struct Put {
    /// The key.
    pub key: Key,
    /// The place.
    pub place: Place,
    /// What for.
    pub aim: Aim,
}
