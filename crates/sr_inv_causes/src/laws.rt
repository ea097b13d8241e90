//! What every event keeps.

ghost use Rattle.sr_inv_causes.specs.Caused.{CausesTold};
ghost use Rattle.sr_inv_facts.specs.Laws.{BegunKeeps, EventsKeep, OpensWith};

/// A law: at every moment each verdict and each refusal that was printed has its cause in the lines before it; so it is at the opening, and so it
/// stays with every event.
pub fn causes_are_told()
    ensures opening { OpensWith CausesTold }
    ensures begun { BegunKeeps CausesTold }
    ensures event { EventsKeep CausesTold }
{}
