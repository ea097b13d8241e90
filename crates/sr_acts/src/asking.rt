//! What is asked of the book, and what a plan puts where.

ghost use Rattle.std.specs.Prelude.{◌≡◌, ◌≤◌, IfSome, option_copied};
ghost use Rattle.sr_acts.specs.Fits.{FitsAim, FitsPlan, FitsPut};
ghost use Rattle.sr_machine.specs.Deciding.{version_for};
ghost use Rattle.sr_machine.specs.Starting.{put_of};
ghost use Rattle.sr_shadow.specs.Book.{entry_for, is_clashing};
ghost use Rattle.sr_shadow.specs.Ledger.{FitsEntry};
ghost use Rattle.sr_shadow.specs.Plan.{with_key};

use crate::versions::Versions;
use sr_base::{Key, Layout, Place, Version, layout_ranges};
use sr_hash::clashes;
use sr_machine::{Aim, Put};
use sr_shadow::{Entry, Ledger, Plan};

// The key's entry.
pub(crate) fn entry_for(book: &Ledger, key: Key) -> Option<Entry>
    ensures { result ≡ entry_for key book.now.book.entries }
{
    match book.get(key) {
        Some(entry) => Some(*entry),
        None => None,
    }
}

// The version of a key: that of its entry, or else the one that it would learn.
pub(crate) fn version_for(versions: &Versions, book: &Ledger, key: Key) -> Version
    ensures { result ≡ version_for versions.now.vips book.now.book.entries key }
{
    match entry_for(book, key) {
        Some(entry) => entry.version,
        None => versions.learned(key.vip),
    }
}

// Whether another registered key outside the full-key table clashes with this one in a way, where one key more counts as registered.
#[tactic(auto, using(sr_shadow::proofs::Counting::counted_clashing))]
pub(crate) fn is_clashing_with(
    book: &Ledger,
    layout: &Layout,
    counted: Key,
    way: u8,
    key: Key,
) -> bool
    requires way { (1 ≤ way) × (way ≤ 2) }
    requires made { book.now.layout ≡ layout.now }
    ensures { result ≡ is_clashing layout.now.shape way key (with_key counted book.now.book.entries) }
{
    layout_ranges(layout);
    book.clashing(way, key)
        || (!book.is_registered(counted)
            && (!key.same(counted) && clashes(layout.shape(), way, key, counted)))
}

// What a plan of a key puts where, for this aim; a move puts its entry first.
pub(crate) fn put_of(layout: &Layout, key: Key, aim: &Aim, plan: &Plan) -> Option<Put>
    requires aim { FitsAim layout.now.shape aim.now }
    requires plan { FitsPlan layout.now.shape plan.now }
    ensures value { result ≡ put_of key aim.now plan.now }
    ensures fits { IfSome result (FitsPut layout.now.shape) }
{
    let _ = layout;
    match plan {
        Plan::Slot { place } => Some(Put {
            key,
            place: *place,
            aim: *aim,
        }),
        Plan::Move {
            key: other,
            from,
            to,
            ..
        } => Some(Put {
            key: *other,
            place: *to,
            aim: Aim::Move {
                from: *from,
                planned: key,
            },
        }),
        Plan::FullKey { row } => Some(Put {
            key,
            place: Place::Row { row: *row },
            aim: *aim,
        }),
        Plan::NoRoom => None,
    }
}
