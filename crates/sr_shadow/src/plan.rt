use sr_base::{Key, Place};

/// How a key without a Live place is placed.
#[derive(Clone, Copy, Debug, PartialEq, Eq)]
pub enum Plan {
    /// Into a slot of one of its buckets.
    Slot {
        /// The slot.
        place: Place,
    },
    /// Into a slot, once another entry has moved away. (SilkRoad, SIGCOMM 2017: a cuckoo move.)
    Move {
        /// The key of the entry that moves.
        key: Key,
        /// Its slot.
        from: Place,
        /// The slot in its other bucket, to which it moves.
        to: Place,
        /// The slot that is then free for the key.
        then: Place,
    },
    /// Into a row of its group in the table of full keys.
    FullKey {
        /// The row.
        row: u32,
    },
    /// Nowhere.
    NoRoom,
}
