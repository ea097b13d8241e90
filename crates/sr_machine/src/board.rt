ghost use Rattle.std.specs.Prelude.{◌≡◌, ℕ, List, Option};
ghost use Rattle.sr_base.specs.WordName.{HasWord};
ghost use Rattle.sr_machine.specs.Boards.{Beside, CanBeTold, FitsAfter, FitsTold, IsNext, QuietNote, ReportsAfter, ShowsAfter, StaysAtRest, told_ms, told_packet, told_refusal};
ghost use Rattle.sr_machine.specs.Config.{Config};
ghost use Rattle.sr_machine.specs.Names.{name_for};
ghost use Rattle.sr_machine.specs.declared.name.Name.{Name};
ghost use Rattle.sr_machine.specs.declared.op.Op.TheVariants.{Adds, Loads, Ors, Stores, Swaps};
ghost use Rattle.sr_machine.specs.declared.view.View.{View};

use sr_base::{Packet, WordName};

/// One actor's access to the shared words. Each step is the next one of a view that the board fits, and is made at once; a
/// telling makes no step, and the next step makes what was told known.
pub trait Board {
    /// The views of its actor that it fits, for what the machine was made for.
    ghost fits: { Self → Config → View → Type 0 };

    /// What it belongs to, and what it holds beside its actor's view.
    ghost beside: { Self → Beside };

    /// That the words are these. A board that tells no words says so of none.
    ghost shows: { Self → (Name → ℕ) → Type 0 };

    /// That each note is 0, and no pipe can step while the board is held.
    ghost rests: { Self → Type 0 };

    /// How many reports the rings hold, where the board rests.
    ghost reports: { Self → ℕ };

    /// A packet enters.
    fn enter(&mut self, packet: Packet)
        requires { CanBeTold (fits self.old) (told_packet packet) }
        ensures fits { FitsTold (fits self.old) (told_packet packet) (fits self.new) }
        ensures beside { beside self.new ≡ beside self.old }
        ensures words { (words : Name → ℕ) → shows self.old words → shows self.new words }
        ensures rest { StaysAtRest (rests self.old) (reports self.old) (rests self.new) (reports self.new) };

    /// The controller is told the time, in milliseconds of capture time.
    fn due(&mut self, ms: u64)
        requires { CanBeTold (fits self.old) (told_ms ms) }
        ensures fits { FitsTold (fits self.old) (told_ms ms) (fits self.new) }
        ensures beside { beside self.new ≡ beside self.old }
        ensures words { (words : Name → ℕ) → shows self.old words → shows self.new words }
        ensures rest { StaysAtRest (rests self.old) (reports self.old) (rests self.new) (reports self.new) };

    /// The controller is told to refuse a change.
    fn refuse(&mut self)
        requires { CanBeTold (fits self.old) told_refusal }
        ensures fits { FitsTold (fits self.old) told_refusal (fits self.new) }
        ensures beside { beside self.new ≡ beside self.old }
        ensures words { (words : Name → ℕ) → shows self.old words → shows self.new words }
        ensures rest { StaysAtRest (rests self.old) (reports self.old) (rests self.new) (reports self.new) };

    /// The word.
    fn load(&mut self, at: WordName) -> u64
        requires named { HasWord (beside self.old).layout at }
        requires next { IsNext (fits self.old) (Loads (name_for at)) }
        ensures fits { FitsAfter (fits self.old) (Loads (name_for at)) result (fits self.new) }
        ensures beside { beside self.new ≡ beside self.old }
        ensures words { ShowsAfter (shows self.old) (Loads (name_for at)) result (shows self.new) }
        ensures rest { StaysAtRest (rests self.old) (reports self.old) (rests self.new) (reports self.new) }
        ensures quiet { rests self.old → QuietNote at result };

    /// Stores a number.
    fn store(&mut self, at: WordName, value: u64)
        requires named { HasWord (beside self.old).layout at }
        requires next { IsNext (fits self.old) (Stores (name_for at) value) }
        ensures fits { FitsAfter (fits self.old) (Stores (name_for at) value) value (fits self.new) }
        ensures beside { beside self.new ≡ beside self.old }
        ensures words { ShowsAfter (shows self.old) (Stores (name_for at) value) value (shows self.new) }
        ensures rest { StaysAtRest (rests self.old) (reports self.old) (rests self.new) (reports self.new) };

    /// Stores a number, and answers the word before it.
    fn swap(&mut self, at: WordName, value: u64) -> u64
        requires named { HasWord (beside self.old).layout at }
        requires next { IsNext (fits self.old) (Swaps (name_for at) value) }
        ensures fits { FitsAfter (fits self.old) (Swaps (name_for at) value) result (fits self.new) }
        ensures beside { beside self.new ≡ beside self.old }
        ensures words { ShowsAfter (shows self.old) (Swaps (name_for at) value) result (shows self.new) }
        ensures rest { rests self.old → rests self.new }
        ensures reports { rests self.old → ReportsAfter at result (reports self.old) (reports self.new) };

    /// Adds a number, of 64 bits, and answers the word before.
    fn add(&mut self, at: WordName, by: u64) -> u64
        requires named { HasWord (beside self.old).layout at }
        requires next { IsNext (fits self.old) (Adds (name_for at) by) }
        ensures fits { FitsAfter (fits self.old) (Adds (name_for at) by) result (fits self.new) }
        ensures beside { beside self.new ≡ beside self.old }
        ensures words { ShowsAfter (shows self.old) (Adds (name_for at) by) result (shows self.new) }
        ensures rest { StaysAtRest (rests self.old) (reports self.old) (rests self.new) (reports self.new) };

    /// Sets bits, and answers the word before.
    fn or(&mut self, at: WordName, bits: u64) -> u64
        requires named { HasWord (beside self.old).layout at }
        requires next { IsNext (fits self.old) (Ors (name_for at) bits) }
        ensures fits { FitsAfter (fits self.old) (Ors (name_for at) bits) result (fits self.new) }
        ensures beside { beside self.new ≡ beside self.old }
        ensures words { ShowsAfter (shows self.old) (Ors (name_for at) bits) result (shows self.new) }
        ensures rest { StaysAtRest (rests self.old) (reports self.old) (rests self.new) (reports self.new) };
}
