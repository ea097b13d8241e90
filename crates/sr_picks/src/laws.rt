//! What the definitions mean.

ghost use Rattle.std.specs.Prelude.{◌≡◌, ℕ, List, None, Some, true};
ghost use Rattle.sr_machine.specs.Config.{Config};
ghost use Rattle.sr_machine.specs.Core.{Core as AState, Reaches};
ghost use Rattle.sr_machine.specs.Turning.{turned};
ghost use Rattle.sr_machine.specs.declared.settled.Settled.{Settled as ASettled};
ghost use Rattle.sr_machine.specs.declared.turn.Turn.{Turn as ATurn};
ghost use Rattle.sr_picks.specs.Left.{PicksLower};
ghost use Rattle.sr_picks.specs.Play.{Play, PlaysTo, is_over, picked};
ghost use Rattle.sr_picks.specs.Run.{RunsByActs, RunsByPicks};
ghost use Rattle.sr_picks.specs.Turn.{turn_of};
ghost use Rattle.sr_rounds.specs.declared.timed.Timed.{Timed as ATimed};

/// A law: a run by picks is a run of the machine, whatever the generator picks; so is each round of it.
pub fn picks_are_runs()
    ensures round { (k : Config) (p q : Play) → Reaches k p.state → PlaysTo p q → Reaches k q.state }
    ensures whole { (k : Config) (seed : ℕ) (packets : List ATimed) (r : ASettled) (t : AState) → RunsByPicks k seed packets r t
        → Reaches k t }
{}

/// A law: a run round by round is a run of the machine, whoever acts next; and a run by picks is one round by round.
pub fn acts_are_runs()
    ensures reached { (k : Config) (packets : List ATimed) (r : ASettled) (t : AState) → RunsByActs k packets r t → Reaches k t }
    ensures picked { (k : Config) (seed : ℕ) (packets : List ATimed) (r : ASettled) (t : AState) → RunsByPicks k seed packets r t
        → RunsByActs k packets r t }
{}

/// A law: a run by picks ends in one way alone, so its state and how its turns end are a function of the machine, the seed and the
/// packets.
pub fn runs_end_once()
    ensures { (k : Config) (seed : ℕ) (packets : List ATimed) (r z : ASettled) (t u : AState) → RunsByPicks k seed packets r t
        → RunsByPicks k seed packets z u → (r ≡ z) × (t ≡ u) }
{}

/// A law: a round ends. Each pick lowers what is left of it, and where nobody is picked every actor has ended.
pub fn rounds_end()
    ensures lower { PicksLower }
    ensures over { (p : Play) (x : ℕ) → picked p x ≡ None → is_over p ≡ true }
{}

/// A law: a turn that ends an act is the machine's turn.
pub fn turns_are_turns()
    ensures { (s : AState) (t : ATurn) → (turn_of s).answer ≡ Some t → turned s ≡ Some (t, (turn_of s).state) }
{}
