//! The controller's book: an entry for each registered key, in the order of taking, with the key's version, its places and how quiet it has
//! been. Every call is exact against the plain list of entries. Every call takes logarithmic time, but for two: `holder` of a place that the layout
//! doesn't have looks at each entry, and `reserve` (and `take` of a `Shadow`) now and then closes gaps, which retirements have paid for.
//!
//! | part | what it is |
//! |---|---|
//! | `entry`, `took` | an entry, and what taking a key answers |
//! | `book` | the book as a plain value |
//! | `indexed_book` | the book with its indexes, and its calls |
//! | `ledger` | the book with room counted, whose keys stand in places of its layout |
//! | `shadow` | the book with room made for one key at a time |
//! | `plan` | how a key is placed; the first way there is stands in `specs/Plan.antt`, and `sr_plan` finds it by a few look-ups |
//! | `laws`, `plain` | what the first way means, and a body that finds it by walks over the list |
//! | `own_places`, `mistaking` | the slots and rows of a key, and whose packets are taken for whose |
//! | `roll`, `slot_marks` | the entries in the order of taking, and marks of those without and with a Live place |
//! | `key_numbers`, `version_counts` | what finds a key's entry, how many keys have a version |
//! | `rivals`, `tally`, `holders` | who clashes with a key, how many of them there are, who holds a place |
#![tactic(auto)]

mod book;
mod entry;
mod holders;
mod indexed_book;
mod key_numbers;
mod laws;
mod ledger;
mod mistaking;
mod own_places;
mod plain;
mod plan;
mod rivals;
mod roll;
mod shadow;
mod slot_marks;
mod tally;
mod took;
mod version_counts;

pub use book::Book;
pub use entry::{Entry, quiet_after};
pub use indexed_book::{IndexedBook, indexed_book_rules};
pub use laws::{
    later_ways, marks_change_no_plan, moves_make_room, moves_stay_apart, own_places_stand,
    plans_give, slots_make_no_room, slots_stay_apart, taking_makes_no_room,
};
pub use ledger::{Ledger, ledger_rules};
pub use mistaking::is_mistaken;
pub use own_places::{key_rows, key_slots, other_way, slots_of};
pub use plain::{entry_at, is_clashing, is_clashing_with, is_registered, plan_over, plan_plain};
pub use plan::Plan;
pub use shadow::{Shadow, book_rules};
pub use took::Took;
