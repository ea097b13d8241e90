//! What graces, phases and numbers keep to.

ghost use Rattle.std.specs.Prelude.{◌≡◌, ◌≢◌, ◌<◌, ◌⊎◌, ℕ, List, Option, Some, None};
ghost use Rattle.sr_base.specs.Layout.{LayoutView};
ghost use Rattle.sr_update.specs.Grace.{grace_from};
ghost use Rattle.sr_update.specs.Laws.{after_notes, HasPassed, SeenPassed};
ghost use Rattle.sr_update.specs.Laws.{IsGiving, HaveStates, rows_in_update, rows_after_update};
ghost use Rattle.sr_update.specs.Laws.{NumberAct, all_acted, last_act, state_after, IsRelease};
ghost use Rattle.sr_update.specs.Numbers.{NumberRows, opening_rows, state_of, with_state, current_count};
ghost use Rattle.sr_update.specs.Waits.{first_before_hold, first_before_finish};
ghost use Rattle.sr_update.specs.declared.number_state.NumberState.{NumberState as AState};
ghost use Rattle.sr_update.specs.declared.number_state.NumberState.TheVariants.{Free, Current, Draining};

use crate::{Numbers, Passed, Recording};
use sr_shadow::Shadow;

/// A grace that has ended saw of each pipe, when it was the next one, a note of 0 or one that is no earlier than its
/// tick; so a later one, since no two ticks are equal.
pub fn graces_wait_for_all()
    ensures seen { (tick pipes : ℕ) (notes : List ℕ) → (after_notes (grace_from tick pipes) notes).next ≡ pipes
        → (pipe : ℕ) → pipe < pipes → SeenPassed tick pipes notes pipe }
    ensures later { (tick note : ℕ) → HasPassed tick note → note ≢ tick → (note ≡ 0) ⊎ (tick < note) }
{}

/// The phases of an update come one after another, each with a grace of its own, and the numbers change at the end alone.
pub fn made_in_order(
    recording: Recording,
    passed: (Passed, Passed, Passed, Passed),
    mark: u64,
    at_hold: &Shadow,
    at_finish: &Shadow,
    numbers: &mut Numbers,
)
    requires placed { first_before_hold recording.update.vip mark at_hold.now.book.entries ≡ None }
    requires moved { first_before_finish recording.update.vip recording.update.replaced at_finish.now.book.entries ≡ None }
    requires current { state_of recording.update.vip recording.update.replaced numbers.old ≡ Some Current }
    ensures { numbers.new ≡ with_state recording.update.vip recording.update.replaced Draining numbers.old }
{
    let (first, second, third, fourth) = passed;
    let holding = recording.hold(first, at_hold, mark);
    let moving = holding.switch(second);
    let closing = moving.finish(third, at_finish);
    closing.done(fourth, numbers);
}

/// While an update is on, the number that it replaces is Current as well as the one that it gives; once it is over,
/// the first is Draining. Then one number of the virtual address is Current, as it was before.
pub fn replaced_numbers_drain()
    ensures both { (rows : NumberRows) (vip number replaced : ℕ) → IsGiving rows vip number replaced
        → HaveStates (rows_in_update vip number rows) vip number Current replaced Current }
    ensures over { (rows : NumberRows) (vip number replaced : ℕ) → IsGiving rows vip number replaced
        → HaveStates (rows_after_update vip number replaced rows) vip number Current replaced Draining }
    ensures one { (rows : NumberRows) (vip number replaced : ℕ) → IsGiving rows vip number replaced
        → current_count vip rows ≡ 1 → current_count vip (rows_after_update vip number replaced rows) ≡ 1 }
    ensures opening { (l : LayoutView) (vip : ℕ) → vip < l.vips → current_count vip (opening_rows l) ≡ 1 }
{}

/// The state of a number is told by the last act on it: it is Free only if it was released last, or was never given
/// and Free from the opening on.
pub fn numbers_are_free_by_release()
    ensures told { (rows : NumberRows) (acts : List NumberAct) (vip number : ℕ) (start : AState)
        → state_of vip number rows ≡ Some start → state_of vip number (all_acted acts rows) ≡ Some (state_after start (last_act vip number None acts)) }
    ensures free { (start : AState) (last : Option NumberAct) → state_after start last ≡ Free
        → ((last ≡ None) × (start ≡ Free)) ⊎ IsRelease last }
{}
