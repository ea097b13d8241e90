//! What every event keeps.

ghost use Rattle.sr_inv_facts.specs.Laws.{BegunKeeps, EventsKeep, OpensWith};
ghost use Rattle.sr_inv_verdicts.specs.Caused.{DowningUnknown, FlightsCaused, ReportsTold};

/// A law: while the word of a server that is taken down is still to be stored, no line of the controller came after the one that tells it; so it is at the
/// opening, and so it stays with every event.
pub fn downs_are_unknown()
    ensures opening { OpensWith DowningUnknown }
    ensures begun { BegunKeeps DowningUnknown }
    ensures event { EventsKeep DowningUnknown }
{}

/// A law: the lines of a pipe's packets that left a word in its ring stand among all lines in the order in which the pipe printed them; so it is at the
/// opening, and so it stays with every event.
pub fn reports_are_told()
    ensures opening { OpensWith ReportsTold }
    ensures begun { BegunKeeps ReportsTold }
    ensures event { EventsKeep ReportsTold }
{}

/// A law: at every moment each packet in flight has a cause, in the lines so far, for the verdict that it has: an opener that found an entry one that it clashes
/// with, one that found its ring full as many reports as the ring has cells, and no packet is sent to a server that was known to be down when it
/// entered; so it is at the opening, and so it stays with every event.
pub fn verdicts_have_causes()
    ensures opening { OpensWith FlightsCaused }
    ensures begun { BegunKeeps FlightsCaused }
    ensures event { EventsKeep FlightsCaused }
{}
