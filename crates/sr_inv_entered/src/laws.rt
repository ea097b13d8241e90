//! What enters in a run by picks.

ghost use Rattle.sr_inv_entered.specs.Entered.{ActsAreLawful, PicksAreFinal, PicksAreLawful, PicksAreReached, PicksEnterAll};

/// A law: a run by picks of fewer than 2^32 packets whose virtual addresses are there lets in these packets, each as often as it is
/// given, by whatever events its state is reached; and some events reach it.
pub fn picks_enter_all()
    ensures reached { PicksAreReached }
    ensures all { PicksEnterAll }
{}

/// A law: the lines of such a run are those of a whole run of the packets that it was given: each packet has its line, as often as it is
/// given, and each held opener its one answer.
pub fn picks_are_final()
    ensures { PicksAreFinal }
{}

/// A law: whatever the seed picks, the lines of such a run are lawful, for what the machine was made for and the packets that it was
/// given; and so they are of a run round by round, whoever acts next.
pub fn picks_are_lawful()
    ensures picks { PicksAreLawful }
    ensures acts { ActsAreLawful }
{}
