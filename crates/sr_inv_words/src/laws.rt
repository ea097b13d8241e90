//! What every event keeps.

ghost use Rattle.sr_inv_facts.specs.InTicks.{InTicks};
ghost use Rattle.sr_inv_facts.specs.InWords.{InWords};
ghost use Rattle.sr_inv_facts.specs.Laws.{BegunKeeps, EventsKeep, OpensWith};

/// A law: each shared word is what the views say at the opening, and stays so with every event.
pub fn words_are_kept()
    ensures opening { OpensWith InWords }
    ensures begun { BegunKeeps InWords }
    ensures event { EventsKeep InWords }
{}

/// A law: each tick was drawn once and none wraps, at the opening and after every event; the lines of each view rise.
pub fn ticks_are_kept()
    ensures opening { OpensWith InTicks }
    ensures begun { BegunKeeps InTicks }
    ensures event { EventsKeep InTicks }
{}
