//! How a capture that is made from a number is read.

ghost use Rattle.sr_made.specs.Made.{MadeAreFrames, MadeAreLong, MadeAreWhole};

/// A law: a capture that is made from a number has 24 bytes, and 56 for each packet; it is read as a capture with a record for each packet, and
/// none is refused; packet t, from 0, comes t tenths of a millisecond after the first.
pub fn made_are_whole()
    ensures long { MadeAreLong }
    ensures whole { MadeAreWhole }
    ensures frames { MadeAreFrames }
{}
