ghost use Rattle.std.specs.Prelude.{◌≡◌};
ghost use Rattle.sr_shadow.specs.Plan.{IsUnplaced, first_plan, move_plan, slot_plan};

use crate::clear::is_clear_but;
use crate::moves::first_move;
use crate::rows::first_row;
use crate::slots::usable;
use sr_base::{Key, Layout};
use sr_shadow::{IndexedBook, Ledger, Plan, Shadow, indexed_book_rules};

/// The plan of a key without a Live place, for a book that was made of this layout: the first way there is to place it.
pub fn plan(shadow: &Shadow, layout: &Layout, key: Key) -> Plan
    requires made { shadow.now.layout ≡ layout.now }
    requires unplaced { IsUnplaced key shadow.now.book.entries }
    ensures { result ≡ first_plan layout.now.shape shadow.now.book.entries key }
{
    first_way(shadow.indexed(), layout, key)
}

/// The same for a ledger.
pub fn plan_in(ledger: &Ledger, layout: &Layout, key: Key) -> Plan
    requires made { ledger.now.layout ≡ layout.now }
    requires unplaced { IsUnplaced key ledger.now.book.entries }
    ensures { result ≡ first_plan layout.now.shape ledger.now.book.entries key }
{
    first_way(ledger.indexed(), layout, key)
}

// The first way there is to place the key.
#[tactic(auto, unfolding(sr_shadow::specs::Plan::first_plan))]
fn first_way(indexed: &IndexedBook, layout: &Layout, key: Key) -> Plan
    requires made { indexed.now.layout ≡ layout.now }
    requires unplaced { IsUnplaced key indexed.now.book.entries }
    ensures { result ≡ first_plan layout.now.shape indexed.now.book.entries key }
{
    if let Some(plan) = slot(indexed, layout, key) {
        return plan;
    }
    if let Some(plan) = moves(indexed, layout, key) {
        return plan;
    }
    match first_row(indexed, layout, key) {
        Some(plan) => plan,
        None => Plan::NoRoom,
    }
}

// The key's first usable slot, if the key is clear.
#[tactic(auto, using(sr_shadow::proofs::Holding::none_placed))]
fn slot(indexed: &IndexedBook, layout: &Layout, key: Key) -> Option<Plan>
    requires made { indexed.now.layout ≡ layout.now }
    requires unplaced { IsUnplaced key indexed.now.book.entries }
    ensures { result ≡ slot_plan layout.now.shape indexed.now.book.entries key }
{
    indexed_book_rules(indexed);
    let place = usable(indexed, layout, key)?;
    if is_clear_but(indexed, layout, key, key) {
        Some(Plan::Slot { place })
    } else {
        None
    }
}

// The first move.
#[tactic(auto, using(sr_shadow::proofs::Holding::none_placed))]
fn moves(indexed: &IndexedBook, layout: &Layout, key: Key) -> Option<Plan>
    requires made { indexed.now.layout ≡ layout.now }
    requires unplaced { IsUnplaced key indexed.now.book.entries }
    ensures { result ≡ move_plan layout.now.shape indexed.now.book.entries key }
{
    indexed_book_rules(indexed);
    first_move(indexed, layout, key)
}
