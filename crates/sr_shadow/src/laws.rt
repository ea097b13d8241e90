//! What the first plan means: laws over the plain list of entries, on which every body that plans can stand.

ghost use Rattle.std.specs.Prelude.{◌≡◌, ◌++◌, ◌∷◌, ℕ, Bool, List, [], None, Some, true, false};
ghost use Rattle.sr_base.specs.Key.{KeyView, same_key};
ghost use Rattle.sr_base.specs.WordName.{HasPlace};
ghost use Rattle.sr_base.specs.declared.place.Place.{Place};
ghost use Rattle.sr_base.specs.declared.shape.Shape.{Shape};
ghost use Rattle.sr_hash.specs.Uses.{is_place_of};
ghost use Rattle.sr_shadow.specs.Book.{CanSettle, DistinctKeys, PlacedLeave, entry_for, holder_of, is_registered, with_changed};
ghost use Rattle.sr_shadow.specs.Entry.{closed, fresh, is_slot, left_other, settled, swept};
ghost use Rattle.sr_shadow.specs.Plan.{AllClear, AllClearBut, GivesMove, GivesRow, GivesSlot, IsUnplaced, KeepsPlaces, NobodyLeaves, first_plan, move_plan, row_plan, slot_plan};
ghost use Rattle.sr_shadow.specs.declared.entry.Entry.{Entry};
ghost use Rattle.sr_shadow.specs.declared.plan.Plan.TheVariants as plan;

use sr_base::{Layout, layout_ranges};

/// The places of a key are ones that the layout has.
pub fn own_places_stand(layout: &Layout)
    ensures { (key : KeyView) (place : Place) → is_place_of layout.now.shape key place ≡ true → HasPlace layout.now.shape place }
{
    layout_ranges(layout);
}

/// What a plan gives. A planned slot is one of the key's, usable, held by nobody, and the key is clear; a planned row is one of its group that
/// nobody holds; a planned move leads to a slot of the other key that is usable for it and held by nobody. Where nobody is about to leave a place
/// the moving entry can settle there, and a pending key of a book can settle anywhere that nobody holds.
pub fn plans_give()
    ensures slots { (shape : Shape) (es : List Entry) (key : KeyView) (place : Place) → first_plan shape es key ≡ plan.Slot place → GivesSlot shape es key place }
    ensures rows { (shape : Shape) (es : List Entry) (key : KeyView) (row : ℕ) → first_plan shape es key ≡ plan.FullKey row → GivesRow shape es key row }
    ensures moves { (shape : Shape) (es : List Entry) (key other : KeyView) (from to last : Place) → first_plan shape es key ≡ plan.Move other from to last
        → GivesMove shape es key other from to last }
    ensures settles { (shape : Shape) (es : List Entry) (key other : KeyView) (from to last : Place) → first_plan shape es key ≡ plan.Move other from to last
        → DistinctKeys es → NobodyLeaves es → CanSettle other es }
    ensures pending { (es : List Entry) (key : KeyView) (e : Entry) → PlacedLeave es → entry_for key es ≡ Some e → e.place ≡ None → CanSettle key es }
{}

/// A key is planned for the table of full keys only where it has no slot and no move, and it has no room only where there is no plan at all.
pub fn later_ways()
    ensures full_key { (shape : Shape) (es : List Entry) (key : KeyView) (row : ℕ) → first_plan shape es key ≡ plan.FullKey row → (slot_plan shape es key ≡ None) × (move_plan shape es key ≡ None) }
    ensures no_room { (shape : Shape) (es : List Entry) (key : KeyView) → first_plan shape es key ≡ plan.NoRoom → (slot_plan shape es key ≡ None) × (move_plan shape es key ≡ None) × (row_plan shape es key ≡ None) }
{}

/// A key that has no plan has none after another one was taken: a new entry never makes room.
pub fn taking_makes_no_room()
    ensures { (shape : Shape) (es : List Entry) (key other : KeyView) (version number : ℕ) → same_key key other ≡ false → is_registered other es ≡ false
        → first_plan shape es key ≡ plan.NoRoom → first_plan shape (es ++ fresh other version number ∷ []) key ≡ plan.NoRoom }
{}

/// Nor has it one after a pending key has settled in a slot. (After a key was retired, left a place or settled in a row it can have one.)
pub fn slots_make_no_room()
    ensures { (shape : Shape) (es : List Entry) (key other : KeyView) (place : Place) (e : Entry) → DistinctKeys es → entry_for other es ≡ Some e → e.place ≡ None → e.also ≡ None
        → is_slot place ≡ true → same_key other key ≡ false
        → first_plan shape es key ≡ plan.NoRoom → first_plan shape (with_changed (settled place) other es) key ≡ plan.NoRoom }
{}

/// What leaves each entry's key and places as they are, as a Close and a sweep do, changes no plan.
pub fn marks_change_no_plan()
    ensures same { (shape : Shape) (es : List Entry) (change : Entry → Entry) (marked key : KeyView) → ((e : Entry) → KeepsPlaces e (change e))
        → first_plan shape (with_changed change marked es) key ≡ first_plan shape es key }
    ensures close { (e : Entry) → KeepsPlaces e (closed e) }
    ensures sweep { (e : Entry) (hit : Bool) → KeepsPlaces e (swept hit e) }
{}

/// Where packets of no other registered key outside the full-key table are taken for another connection's, a planned slot leaves it so, and the
/// same holds of the planned key.
pub fn slots_stay_apart()
    ensures { (shape : Shape) (es : List Entry) (key : KeyView) (place : Place) → first_plan shape es key ≡ plan.Slot place → AllClearBut key shape es
        → AllClear shape (with_changed (settled place) key es) }
{}

/// A planned move makes room: the entry is Live at the slot that it leaves, nobody holds the slot that it moves to, and once it is Live there and
/// has left its own, the plan of the key is the slot that the move is for.
pub fn moves_make_room()
    ensures mover { (shape : Shape) (es : List Entry) (key other : KeyView) (from to last : Place) → first_plan shape es key ≡ plan.Move other from to last
        → DistinctKeys es → (e : Entry) × (entry_for other es ≡ Some e) × (e.place ≡ Some from) }
    ensures free { (shape : Shape) (es : List Entry) (key other : KeyView) (from to last : Place) → first_plan shape es key ≡ plan.Move other from to last
        → holder_of to es ≡ None }
    ensures slot { (shape : Shape) (es : List Entry) (key other : KeyView) (from to last : Place) → first_plan shape es key ≡ plan.Move other from to last
        → IsUnplaced key es → first_plan shape (with_changed left_other other (with_changed (settled to) other es)) key ≡ plan.Slot last }
{}

/// Where packets of no other registered key outside the full-key table are taken for another connection's, a planned move leaves it so.
pub fn moves_stay_apart()
    ensures { (shape : Shape) (es : List Entry) (key other : KeyView) (from to last : Place) → first_plan shape es key ≡ plan.Move other from to last
        → DistinctKeys es → IsUnplaced key es → AllClearBut key shape es
        → AllClearBut key shape (with_changed left_other other (with_changed (settled to) other es)) }
{}
