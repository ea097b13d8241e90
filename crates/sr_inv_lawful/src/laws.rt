//! When the lines of a machine are lawful.

ghost use Rattle.sr_inv_lawful.specs.Lawful.{RestedAreLawful, SettledAreLawful};

/// A law: the lines of a state at rest, to which any events lead, are lawful for what the machine was made for and the packets that its
/// pipes have lines of. So are those after turns until nothing is left to do, of which the first began with every pipe idle and no look
/// at the rings in progress.
pub fn lines_are_lawful()
    ensures rested { RestedAreLawful }
    ensures settled { SettledAreLawful }
{}
