//! What the definition means.

ghost use Rattle.std.specs.Prelude.{ℕ, ◌≤◌, List};
ghost use Rattle.sr_rounds.specs.Rounds.{AreTheRounds, rounds_of};
ghost use Rattle.sr_rounds.specs.declared.timed.Timed.{Timed as ATimed};

/// A law: every packet is in one round, in order; a round's packets are of one window, 65,536 at most; and a round ends where the
/// window does, or it is full.
pub fn rounds_are_windows()
    ensures { (window_ms : ℕ) → (packets : List ATimed) → AreTheRounds window_ms packets (rounds_of window_ms packets) }
{}
