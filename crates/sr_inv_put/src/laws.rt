//! What the condition gives, and who meets it.

ghost use Rattle.std.specs.Prelude.{◌≡◌, ℕ, List};
ghost use Rattle.sr_base.specs.declared.shape.Shape.{Shape};
ghost use Rattle.sr_inv_facts.specs.InJobs.{PutHolds};
ghost use Rattle.sr_inv_facts.specs.InMatching.{IsClearPut};
ghost use Rattle.sr_inv_facts.specs.Invariant.{Invariant};
ghost use Rattle.sr_inv_put.specs.MayPut.{BeginsMayPut, MayPut, PutsKeepInvariant};
ghost use Rattle.sr_machine.specs.Core.{Core};
ghost use Rattle.sr_machine.specs.declared.held_opener.HeldOpener.{HeldOpener};
ghost use Rattle.sr_machine.specs.declared.put.Put.{Put as APut};
ghost use Rattle.sr_shadow.specs.declared.entry.Entry.{Entry as AnEntry};

/// A law: of a put that may begin, whoever chose its place, there holds what the invariant says of a put: its place is one of its key and
/// held by nobody, its aim stands in the book, and a key that isn't registered and goes into a slot is clear.
pub fn puts_hold()
    ensures { (shape : Shape) (entries : List AnEntry) (held : List HeldOpener) (put : APut) → MayPut shape entries held put
        → PutHolds shape entries held put × IsClearPut shape entries put }
{}

/// A law: where the invariant holds, a put that the controller begins by the first plan may begin.
pub fn plans_may_be_put()
    ensures { (s : Core) → Invariant s → BeginsMayPut s }
{}

/// A law: every put that a controller may begin keeps the whole invariant, whoever chose its place: a controller without a job, to which no
/// refusal was told, begins a put that may begin. What each event then keeps of a put under way asks for no more.
pub fn puts_keep_the_invariant()
    ensures { PutsKeepInvariant }
{}
