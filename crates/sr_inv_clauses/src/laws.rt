//! What every event keeps.

ghost use Rattle.sr_inv_clauses.specs.Clauses.{NumbersFree, PoolsNewer, PoolsSame, ServersRight};
ghost use Rattle.sr_inv_facts.specs.Laws.{BegunKeeps, EventsKeep, OpensWith};

/// A law: at every moment each server that a line names is the one that its key's hash picks from the pool that the line's version was last
/// given; so it is at the opening, and so it stays with every event.
pub fn servers_are_right()
    ensures opening { OpensWith ServersRight }
    ensures begun { BegunKeeps ServersRight }
    ensures event { EventsKeep ServersRight }
{}

/// A law: at every moment each line that sends a packet of an open connection that entered after its opening, or would were the server not down, has the
/// opening's pool; so it is at the opening, and so it stays with every event.
pub fn pools_are_same()
    ensures opening { OpensWith PoolsSame }
    ensures begun { BegunKeeps PoolsSame }
    ensures event { EventsKeep PoolsSame }
{}

/// A law: at every moment each line that opens a connection uses the pool that its virtual address was last switched to before the line started, or a later
/// one, and none that wasn't given; so it is at the opening, and so it stays with every event.
pub fn pools_are_newer()
    ensures opening { OpensWith PoolsNewer }
    ensures begun { BegunKeeps PoolsNewer }
    ensures event { EventsKeep PoolsNewer }
{}

/// A law: at every moment each version that was given is one of the shape, wasn't the last one of its virtual address, and was the version of no open
/// connection; so it is at the opening, and so it stays with every event.
pub fn numbers_are_free()
    ensures opening { OpensWith NumbersFree }
    ensures begun { BegunKeeps NumbersFree }
    ensures event { EventsKeep NumbersFree }
{}
