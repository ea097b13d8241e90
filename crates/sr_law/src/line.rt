ghost use Rattle.std.specs.Prelude.{◌≡◌};
ghost use Rattle.sr_law.specs.Final.{packet_by};
ghost use Rattle.sr_law.specs.Ticks.{out_of, start_of, is_controller, key_of, chosen, choice_of};

use crate::{Choice, Verdict};
use sr_base::{Key, Kind, Packet, Place, Version};

/// One printed line: what became of a packet, or an act of the controller. Ticks are numbers that rise with each drawing, from 1.
#[derive(Clone, Copy, Debug, PartialEq, Eq)]
pub enum Line {
    /// A pipe's line of a packet.
    Packet {
        /// The position of its record in the capture, from 1.
        number: u32,
        /// The tick at which it entered its pipe.
        entered: u64,
        /// The tick at which it left.
        out: u64,
        /// The pipe.
        pipe: u8,
        /// Whose packet it is.
        key: Key,
        /// What it is to its connection.
        kind: Kind,
        /// What became of it.
        verdict: Verdict,
    },
    /// The controller's answer to the nth held opener of a pipe.
    Answer {
        /// Its tick.
        out: u64,
        /// The pipe that held it.
        pipe: u8,
        /// Which of the pipe's held openers, from 1.
        nth: u32,
        /// Whose opener it is.
        key: Key,
        /// What became of it.
        verdict: Verdict,
    },
    /// A version of a virtual address names this pool from now on.
    Given {
        /// Its tick, before the store.
        out: u64,
        /// The virtual address.
        vip: u8,
        /// The version.
        version: Version,
        /// The pool's number, from 1.
        pool: u64,
    },
    /// An update begins to record openers in the filter.
    Recorded {
        /// Its tick, before the store.
        out: u64,
        /// The virtual address.
        vip: u8,
    },
    /// An update lets no opener through.
    Hold {
        /// Its tick, before the store.
        out: u64,
        /// The virtual address.
        vip: u8,
    },
    /// New connections go to the new pool.
    Switched {
        /// Its tick, after the store.
        out: u64,
        /// The virtual address.
        vip: u8,
        /// The new pool's number.
        pool: u64,
    },
    /// An update is over.
    Finished {
        /// Its tick, after the store.
        out: u64,
        /// The virtual address.
        vip: u8,
    },
    /// A server is down from now on.
    TakenDown {
        /// Its tick, before the store.
        out: u64,
        /// The server.
        server: u32,
    },
    /// A place is taken for a connection, whose entry there isn't live yet.
    Reserved {
        /// Its tick, before the store.
        out: u64,
        /// Whose entry it is.
        key: Key,
        /// The place.
        place: Place,
    },
    /// The entry at a place is live.
    Placed {
        /// Its tick, after the store.
        out: u64,
        /// Whose entry it is.
        key: Key,
        /// The place.
        place: Place,
    },
    /// The entry at a place is gone.
    Cleared {
        /// Its tick, after the store.
        out: u64,
        /// Whose entry it was.
        key: Key,
        /// The place.
        place: Place,
    },
    /// A look at which connections were used since the last one.
    Swept {
        /// Which sweep, from 1.
        number: u64,
        /// The tick before it.
        from: u64,
        /// The tick after it.
        to: u64,
        /// The capture time, in milliseconds.
        at_ms: u64,
    },
    /// A connection is over.
    Retired {
        /// Its tick, before its entry is cleared.
        out: u64,
        /// Whose connection it was.
        key: Key,
    },
    /// A change that found no version number.
    Refused {
        /// Its tick.
        out: u64,
        /// The change's position in the script, from 0.
        change: u32,
    },
}

impl Line {
    /// The tick that it has its place by in a list; a sweep's is the one after it.
    pub fn out(&self) -> u64
        ensures { result ≡ out_of self.now }
    {
        match *self {
            Line::Packet { out, .. } => out,
            Line::Answer { out, .. } => out,
            Line::Given { out, .. } => out,
            Line::Recorded { out, .. } => out,
            Line::Hold { out, .. } => out,
            Line::Switched { out, .. } => out,
            Line::Finished { out, .. } => out,
            Line::TakenDown { out, .. } => out,
            Line::Reserved { out, .. } => out,
            Line::Placed { out, .. } => out,
            Line::Cleared { out, .. } => out,
            Line::Swept { to, .. } => to,
            Line::Retired { out, .. } => out,
            Line::Refused { out, .. } => out,
        }
    }

    /// The tick at which what it tells of began: a packet's entry, the tick before a sweep, and of every other line its only tick.
    pub fn start(&self) -> u64
        ensures { result ≡ start_of self.now }
    {
        match *self {
            Line::Packet { entered, .. } => entered,
            Line::Swept { from, .. } => from,
            _ => self.out(),
        }
    }

    /// Whether the controller wrote it: any line but a pipe's line of a packet.
    pub fn is_controller(&self) -> bool
        ensures { result ≡ is_controller self.now }
    {
        match self {
            Line::Packet { .. } => false,
            _ => true,
        }
    }

    /// Whose line it is, if it is a connection's.
    pub fn key(&self) -> Option<Key>
        ensures { result ≡ key_of self.now }
    {
        match *self {
            Line::Packet { key, .. } => Some(key),
            Line::Answer { key, .. } => Some(key),
            Line::Reserved { key, .. } => Some(key),
            Line::Placed { key, .. } => Some(key),
            Line::Cleared { key, .. } => Some(key),
            Line::Retired { key, .. } => Some(key),
            _ => None,
        }
    }

    /// Where it sends its packet, or would have were the server not down.
    pub fn choice(&self) -> Option<Choice>
        ensures { result ≡ choice_of self.now }
    {
        match *self {
            Line::Packet { key, verdict, .. } => chosen(key, verdict),
            Line::Answer { key, verdict, .. } => chosen(key, verdict),
            _ => None,
        }
    }

    /// The packet that it tells of. None for a line that isn't a pipe's line of a packet.
    pub fn packet(&self) -> Option<Packet>
        ensures { result ≡ packet_by self.now }
    {
        match *self {
            Line::Packet {
                number,
                key,
                kind,
                ..
            } => Some(Packet { number, key, kind }),
            _ => None,
        }
    }
}

// The server that a verdict names for a key.
fn chosen(key: Key, verdict: Verdict) -> Option<Choice>
    ensures { result ≡ chosen key verdict }
{
    match verdict {
        Verdict::To {
            server,
            version,
            pool,
        } => Some(Choice {
            key,
            server,
            version,
            pool,
        }),
        Verdict::Down {
            server,
            version,
            pool,
        } => Some(Choice {
            key,
            server,
            version,
            pool,
        }),
        _ => None,
    }
}
