use crate::{Draw, Store, Wait};
use sr_base::{Key, Place};

/// The next step of the controller.
#[derive(Clone, Copy)]
pub enum Job {
    /// None is set: it is whatever comes first by the order of the controller's acts.
    Free,
    /// It draws a tick.
    Draw(Draw),
    /// It stores a word.
    Store(Store),
    /// It loads a pipe's note, to see whether the packet that was there has passed.
    Pass {
        /// The tick of the wait.
        grace: u64,
        /// The pipe.
        pipe: u8,
        /// What the wait is for.
        wait: Wait,
    },
    /// It takes the next report of a ring.
    Drain {
        /// The pipe.
        pipe: u8,
        /// How many it has taken from this ring in this wait.
        count: u32,
        /// What the wait is for.
        wait: Wait,
    },
    /// It takes the next report of a ring, as nothing else is to be done.
    Look {
        /// The pipe.
        pipe: u8,
    },
    /// A sweep takes the hit of an entry.
    Hit {
        /// The tick at which the sweep began.
        from: u64,
        /// Its capture time, in milliseconds.
        at_ms: u64,
        /// Whose entry it is.
        key: Key,
        /// Where the entry stands.
        place: Place,
        /// How many entries were ever taken before it.
        taken: u64,
    },
}
