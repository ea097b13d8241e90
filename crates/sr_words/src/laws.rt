//! What follows for whoever holds boards, and for what is stored.

ghost use Rattle.sr_words.specs.Laws.{BoardsKnowController, BoardsKnowPipes, HeadsAreUnchosen, ShownStatesMeet, StepsAreMadeIn};

/// A law: a state that shows what actors know, as at the close of a switch, meets the invariant of the machine, so its lines break no
/// clause; and so does the state in which a board's step was made.
pub fn shown_states_meet_the_invariant()
    ensures shown { ShownStatesMeet }
    ensures steps { StepsAreMadeIn }
{}

/// A law: a head or a member is stored only for a version that no packet in flight of its virtual address has loaded, found or chosen.
pub fn heads_are_stored_unchosen()
    ensures { HeadsAreUnchosen }
{}

/// A law: a board of one actor alone that fits a view of a pipe is of that pipe, and one that fits a view of the controller is the
/// controller's. With it boards that were taken apart are put together again.
pub fn boards_know_their_pipes()
    ensures pipes { BoardsKnowPipes }
    ensures controller { BoardsKnowController }
{}
