use crate::Act;
use sr_base::Key;

/// What a turn of the controller answers.
#[derive(Clone, Copy, Debug, PartialEq, Eq)]
pub enum Turn {
    /// It did this.
    Did(Act),
    /// A pipe has a packet in hand that the wait is for.
    NotYet {
        /// The pipe.
        pipe: u8,
        /// The tick at which the packet entered.
        entered: u64,
    },
    /// Nothing can be done, and this pending key, the first, has no plan.
    NoRoom {
        /// The key.
        key: Key,
    },
    /// Nothing can be done, and the first due change finds no free version number of this virtual address.
    VersionsFull {
        /// The number of the virtual address.
        vip: u8,
    },
    /// Nothing is to be done.
    Idle,
    /// There was no memory for what is to be done.
    Memory,
}
