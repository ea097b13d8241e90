//! What the turns over a board are to the machine.

ghost use Rattle.sr_ctl.specs.Laws.{SettlesAsMachine, TurnsAsMachine};

/// A law: a turn each of whose steps found the words of a state of the machine, and those that the steps before it left there, is the machine's
/// turn from that state.
pub fn turning_is_the_machines()
    ensures { TurnsAsMachine }
{}

/// A law: turns until nothing is left to do, each of whose steps found the words of a state of the machine and those that the steps before
/// it left there, are the machine's turns from that state.
pub fn settling_is_the_machines()
    ensures { SettlesAsMachine }
{}
