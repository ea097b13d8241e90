//! What the invariant means.

ghost use Rattle.std.specs.Prelude.{◌≡◌, ℕ, slice_get, Some};
ghost use Rattle.sr_inv_facts.specs.Invariant.{Invariant};
ghost use Rattle.sr_machine.specs.Core.{Core};
ghost use Rattle.sr_machine.specs.declared.name.Name.TheVariants as name;
ghost use Rattle.sr_machine.specs.declared.pipe_view.PipeView.{PipeView};
ghost use Rattle.sr_machine.specs.declared.stage.Stage.TheVariants as stage;

/// A law: where the invariant holds, the note of a pipe that has no packet in hand is 0.
pub fn idle_notes_are_clear()
    ensures { (s : Core) → Invariant s → (p : ℕ) (v : PipeView) → slice_get s.pipes p ≡ Some v → v.stage ≡ stage.Idle
        → s.words (name.Note p) ≡ 0 }
{}
