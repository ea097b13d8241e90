//! What every step of the controller keeps.

ghost use Rattle.std.specs.Prelude.{◌≡◌, ℕ, List, None, Some};
ghost use Rattle.sr_machine.specs.Config.{Config};
ghost use Rattle.sr_machine.specs.Controller.{begun_after, controller_after};
ghost use Rattle.sr_machine.specs.Opening.{opening_controller};
ghost use Rattle.sr_machine.specs.Starting.{begun};
ghost use Rattle.sr_machine.specs.Taking.{ended_by, taking};
ghost use Rattle.sr_machine.specs.Telling.{told_time, told_to_refuse};
ghost use Rattle.sr_machine.specs.declared.controller_view.ControllerView.{ControllerView};
ghost use Rattle.sr_machine.specs.declared.job.Job.{Job};
ghost use Rattle.sr_machine.specs.declared.job.Job.TheVariants as job;
ghost use Rattle.sr_machine.specs.declared.put.Put.{Put};
ghost use Rattle.sr_machine.specs.declared.store.Store.TheVariants as store;
ghost use Rattle.sr_machine.specs.declared.wait.Wait.{Wait};
ghost use Rattle.sr_base.specs.Key.{KeyView};
ghost use Rattle.sr_base.specs.declared.place.Place.{Place};
ghost use Rattle.sr_shadow.specs.Book.{CanSweep, DistinctKeys, HeldOnce, entries_with, entry_for, holder_of};
ghost use Rattle.sr_shadow.specs.declared.entry.Entry.{Entry};
ghost use Rattle.sr_standing.specs.Standing.{Standing, Stands};

/// A law: the entries stand to the job as they must at the opening, once the controller has begun its act, after its step, whatever the step answered, and
/// when it was told something. A word that is taken in a wait or a look keeps it as well, before the next job is set.
pub fn standings_are_kept()
    ensures opening { (k : Config) → Stands (opening_controller k) }
    ensures begun { (k : Config) (c : ControllerView) → DistinctKeys c.book.entries → Stands c → Stands (begun k c) }
    ensures step { (k : Config) (c : ControllerView) (x : ℕ) → DistinctKeys c.book.entries → HeldOnce c.book.entries → Stands c → Stands (controller_after k c x) }
    ensures set { (k : Config) (c : ControllerView) (x : ℕ) → DistinctKeys c.book.entries → HeldOnce c.book.entries → Stands c → Stands (begun_after k c x) }
    ensures drained { (k : Config) (c : ControllerView) (pipe count x : ℕ) (w : Wait) → Standing c.book.entries (job.Drain pipe count w)
        → Standing (taking k c (ended_by (job.Drain pipe count w)) pipe x).book.entries (job.Drain pipe count w) }
    ensures looked { (k : Config) (c : ControllerView) (pipe at x : ℕ) → Standing c.book.entries (job.Look at)
        → Standing (taking k c None pipe x).book.entries (job.Look at) }
    ensures told_time { (ms : ℕ) (c d : ControllerView) → told_time ms c ≡ Some d → Stands c → Stands d }
    ensures told_to_refuse { (c d : ControllerView) → told_to_refuse c ≡ Some d → Stands c → Stands d }
{}

/// A law: a key that is made live, once it is taken, is about to leave no place, and nobody holds the place that it is to have. A sweep comes to a key with a
/// Live place.
pub fn jobs_may_change()
    ensures alone { (p : Put) (entries : List Entry) (version taken : ℕ) → Standing entries (job.Store (store.Judge p))
        → (e : Entry) → entry_for p.key (entries_with p.key version taken entries) ≡ Some e → e.also ≡ None }
    ensures free { (p : Put) (entries : List Entry) (version taken : ℕ) → Standing entries (job.Store (store.Judge p))
        → holder_of p.place (entries_with p.key version taken entries) ≡ None }
    ensures placed { (from ms taken : ℕ) (key : KeyView) (place : Place) (entries : List Entry) → Standing entries (job.Hit from ms key place taken) → CanSweep key entries }
{}
