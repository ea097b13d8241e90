use crate::Name;

/// An atomic step on one shared word.
#[derive(Clone, Copy)]
pub enum Op {
    /// The word is loaded.
    Loads {
        /// Which word.
        name: Name,
    },
    /// A number is stored.
    Stores {
        /// Which word.
        name: Name,
        /// The number.
        value: u64,
    },
    /// A number is stored, and the word before it is answered.
    Swaps {
        /// Which word.
        name: Name,
        /// The number.
        value: u64,
    },
    /// A number is added, of 64 bits, and the word before is answered.
    Adds {
        /// Which word.
        name: Name,
        /// The number.
        by: u64,
    },
    /// Bits are set, and the word before is answered.
    Ors {
        /// Which word.
        name: Name,
        /// The bits.
        bits: u64,
    },
}
