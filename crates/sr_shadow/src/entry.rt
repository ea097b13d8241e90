ghost use Rattle.std.specs.Prelude.{◌≡◌, cond};
ghost use Rattle.sr_shadow.specs.Entry.{holds, is_at, is_outside, is_over, may_retire, quiet_after, stands_in};

use sr_base::{Key, Place, Version};

/// An entry of the book. A key without a Live place is pending.
#[derive(Clone, Copy, Debug, PartialEq, Eq)]
pub struct Entry {
    /// The registered key.
    pub key: Key,
    /// The version of the key's pool.
    pub version: Version,
    /// The place at which the key is Live, if there is one.
    pub place: Option<Place>,
    /// While the key moves, the place that it had before and still holds.
    pub also: Option<Place>,
    /// How many entries were ever taken before this one.
    pub taken: u64,
    /// Whether a Close was taken for the key.
    pub closed: bool,
    /// How many sweeps in a row found no hit at its place, 255 for more. The first sweep after it was settled sets this to 0, whatever it finds;
    /// None before that one.
    pub quiet: Option<u8>,
}

impl Entry {
    /// Whether this is the place at which the key is Live.
    pub fn is_at(&self, place: Place) -> bool
        ensures { result ≡ is_at place self.now.place }
    {
        is_place(self.place, place)
    }

    /// Whether the entry may be retired, where a connection has so many lives: it has a Live place, and so many sweeps in a row found it quiet, or
    /// one where a Close was taken for it.
    pub fn may_retire(&self, lives: u8) -> bool
        ensures { result ≡ may_retire lives self.now }
    {
        self.place.is_some() && is_over(lives, self.closed, self.quiet)
    }

    /// Whether the entry holds the place, as the Live one or as the one that it is about to leave.
    pub fn holds(&self, place: Place) -> bool
        ensures { result ≡ holds place self.now }
    {
        self.is_at(place) || is_place(self.also, place)
    }
}

// Whether so many quiet sweeps end a connection that has so many lives, and for which a Close was taken or wasn't.
fn is_over(lives: u8, closed: bool, quiet: Option<u8>) -> bool
    ensures { result ≡ is_over lives closed quiet }
{
    match quiet {
        None => false,
        Some(quiet) => lives <= quiet || (closed && 1 <= quiet),
    }
}

// Whether a place, if there is one, is this one.
fn is_place(held: Option<Place>, place: Place) -> bool
    ensures { result ≡ is_at place held }
{
    match held {
        Some(held) => place.same(held),
        None => false,
    }
}

// 1 for an entry that isn't placed in a row of the full-key table, else 0.
pub(crate) fn outside(entry: &Entry) -> u64
    ensures { result ≡ cond (is_outside entry.now) 1 0 }
{
    match entry.place {
        Some(Place::Row { .. }) => 0,
        _ => 1,
    }
}

// 1 for an entry whose Live place is a slot of this way, else 0.
pub(crate) fn standing(way: u8, entry: &Entry) -> u64
    ensures { result ≡ cond (stands_in way entry.now) 1 0 }
{
    match entry.place {
        Some(Place::Slot { way: at, .. }) => { if at == way { 1 } else { 0 } }
        _ => 0,
    }
}

/// The quiet sweeps in a row after one more, which found a hit or found none; the first one counts none.
pub fn quiet_after(hit: bool, quiet: Option<u8>) -> u8
    ensures { result ≡ quiet_after hit quiet }
{
    match quiet {
        None => 0,
        Some(n) => {
            if hit {
                0
            } else if n < 255 {
                n + 1
            } else {
                255
            }
        }
    }
}
