//! What every event keeps.

ghost use Rattle.sr_inv_facts.specs.Laws.{BegunKeeps, EventsKeep, OpensWith};
ghost use Rattle.sr_inv_order.specs.Meeting.{OrderKept};

/// A law: at every moment the lines stand in order: ticks rise in the list, in each line and on each pipe, no tick is drawn twice, updates
/// go in whole groups, places are taken and freed by their keys, changes are refused in order, and each number is in its range; so it is
/// at the opening, and so it stays with every event.
pub fn order_is_kept()
    ensures opening { OpensWith OrderKept }
    ensures begun { BegunKeeps OrderKept }
    ensures event { EventsKeep OrderKept }
{}
