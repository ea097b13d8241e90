use crate::{PoolUpdate, Put, Reply, Wait, Why};
use sr_base::{Key, Phase, Place, Version};

/// What the controller draws a tick for.
#[derive(Clone, Copy)]
pub enum Draw {
    /// A wait begins.
    Grace(Wait),
    /// A change is refused, the one at this position.
    Refused(u32),
    /// A server is taken down.
    TakenDown(u32),
    /// A version names its pool.
    Given(PoolUpdate),
    /// An update comes to a phase.
    Comes {
        /// The update.
        update: PoolUpdate,
        /// The phase.
        phase: Phase,
    },
    /// A place is taken.
    Reserved(Put),
    /// An entry became live.
    Placed(Put),
    /// A place was emptied.
    Cleared {
        /// Whose entry it was.
        key: Key,
        /// The place.
        place: Place,
        /// Why.
        why: Why,
    },
    /// A connection is over.
    Retired {
        /// Whose it was.
        key: Key,
        /// Where its entry stands.
        place: Place,
        /// The version that it had.
        version: Version,
    },
    /// A held opener is answered.
    Answer(Reply),
    /// A sweep begins, at this capture time in milliseconds.
    From(u64),
    /// A sweep is over.
    Swept {
        /// The tick at which it began.
        from: u64,
        /// Its capture time, in milliseconds.
        at_ms: u64,
    },
}
