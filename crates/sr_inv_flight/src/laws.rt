//! What every event keeps.

ghost use Rattle.sr_inv_facts.specs.InFlight.{CellsFree, ChoicesHold, FiltersSet, InFlight, NumbersUsed, OverKeyed, PhasesKnown, ReleasesPassed, ServersTold, WordsLoaded};
ghost use Rattle.sr_inv_facts.specs.Laws.{BegunKeeps, EventsKeep, OpensWith};

/// A law: an opener that nothing has matched chooses by the word that it loaded, never in the phase that holds openers, and is held by a phase that it
/// loaded; so it is at the opening, and so it stays with every event.
pub fn choices_are_kept()
    ensures opening { OpensWith ChoicesHold }
    ensures begun { BegunKeeps ChoicesHold }
    ensures event { EventsKeep ChoicesHold }
{}

/// A law: each packet in flight has loaded the present word of its virtual address, or the one before a phase whose wait its pipe hasn't passed; so
/// it is at the opening, and so it stays with every event.
pub fn loaded_words_are_kept()
    ensures opening { OpensWith WordsLoaded }
    ensures begun { BegunKeeps WordsLoaded }
    ensures event { EventsKeep WordsLoaded }
{}

/// A law: a packet that looks at the transit filter, or records itself there, has found or set each place of its key that is behind it; so it is at the
/// opening, and so it stays with every event.
pub fn filter_places_are_kept()
    ensures opening { OpensWith FiltersSet }
    ensures begun { BegunKeeps FiltersSet }
    ensures event { EventsKeep FiltersSet }
{}

/// A law: a packet that found its cell of the ring empty has that cell until its report is stored; so it is at the opening, and so it stays with every
/// event.
pub fn cells_are_kept()
    ensures opening { OpensWith CellsFree }
    ensures begun { BegunKeeps CellsFree }
    ensures event { EventsKeep CellsFree }
{}

/// A law: the version that a packet has found or chosen is in use; so it is at the opening, and so it stays with every event.
pub fn used_numbers_are_kept()
    ensures opening { OpensWith NumbersUsed }
    ensures begun { BegunKeeps NumbersUsed }
    ensures event { EventsKeep NumbersUsed }
{}

/// A law: no packet of a pipe that the wait for a release has passed has found or chosen the version that is released; so it is at the opening, and so
/// it stays with every event.
pub fn releases_are_kept()
    ensures opening { OpensWith ReleasesPassed }
    ensures begun { BegunKeeps ReleasesPassed }
    ensures event { EventsKeep ReleasesPassed }
{}

/// A law: what a packet has loaded of its version, up to its server, is what the pool says that the version names; so it is at the opening, and so it
/// stays with every event.
pub fn servers_are_kept()
    ensures opening { OpensWith ServersTold }
    ensures begun { BegunKeeps ServersTold }
    ensures event { EventsKeep ServersTold }
{}

/// A law: since the last Hold line of the virtual address, no switch is known to a packet that loaded Holding, and no end of the update to one that
/// loaded Transit; so it is at the opening, and so it stays with every event.
pub fn known_phases_are_kept()
    ensures opening { OpensWith PhasesKnown }
    ensures begun { BegunKeeps PhasesKnown }
    ensures event { EventsKeep PhasesKnown }
{}

/// A law: the key of a connection that is over is one, while its place is still to be emptied; so it is at the opening, and so it stays with every
/// event.
pub fn over_keys_are_kept()
    ensures opening { OpensWith OverKeyed }
    ensures begun { BegunKeeps OverKeyed }
    ensures event { EventsKeep OverKeyed }
{}

/// A law: what is said of packets in flight holds at the opening, and stays with every event.
pub fn flights_are_kept()
    ensures opening { OpensWith InFlight }
    ensures begun { BegunKeeps InFlight }
    ensures event { EventsKeep InFlight }
{}
