//! What is true of the lines of a played capture.

ghost use Rattle.sr_played.specs.Lines.{PlayedLinesHold};
ghost use Rattle.sr_played.specs.Resting.{RestingRunsHold};

/// A law: where the lines of a run over the packets of a capture are settled, and lawful if its machine can take these packets,
/// all that `AreRunLines` has is true of them. That the machine can take them is proved: each packet that is kept has the
/// number of one of the script's virtual addresses, and a capture has no more than 4,194,304 of them.
pub fn played_lines_hold()
    ensures { PlayedLinesHold }
{}

/// A law: so it is of the lines of a run whose tables rest while the pipes run, one pipe after another, each packet whole, and then
/// the controller.
pub fn resting_runs_hold()
    ensures { RestingRunsHold }
{}
