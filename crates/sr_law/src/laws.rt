ghost use Rattle.std.specs.Prelude.{◌≡◌, ◌≤◌, ◌++◌, ◌∷◌, [], ◌↔◌, ℕ, List, None, Some, reverse};
ghost use Rattle.sr_law.specs.Lawful.{IsLawful, MeetsClauses, NoLineBreaks, broken, breach_of};
ghost use Rattle.sr_law.specs.Laws.{AreOutBefore, ConnectionsKeepServers, OpeningsFollowSwitches, Supports};
ghost use Rattle.sr_law.specs.Laws.{is_out, is_under_way};
ghost use Rattle.sr_law.specs.Retire.{EndingPacket};

use crate::{Line, Setup};

/// A law: a list of which no line breaks a clause, and one more line, is such a list again exactly where that line breaks none by the lines
/// before it; whatever Ending packets may support a retirement.
pub fn one_more_line(setup: &Setup, lines: &[Line], line: &Line)
    ghost endings: { List EndingPacket }
    ensures { NoLineBreaks setup.now endings (lines.now ++ line.now ∷ [])
        ↔ (NoLineBreaks setup.now endings lines.now × (broken setup.now endings (reverse lines.now) line.now ≡ None)) }
{}

/// A law: a breach is named exactly where a list isn't lawful.
pub fn names_a_breach(setup: &Setup, lines: &[Line])
    ensures { (breach_of setup.now lines.now ≡ None) ↔ IsLawful setup.now lines.now }
{}

/// A law: a line breaks no clause, by the lines before it with the newest first, exactly where it meets each of them.
pub fn breaks_none(setup: &Setup, before: &[Line], line: &Line)
    ghost endings: { List EndingPacket }
    ensures { (broken setup.now endings before.now line.now ≡ None)
        ↔ MeetsClauses setup.now endings before.now line.now }
{}

/// A law: where no line of a list breaks a clause, none does with other Ending packets in support, if they support all that the ones before
/// did: more of them, say, or one that is out by now.
pub fn supported_anew(setup: &Setup, lines: &[Line])
    ensures { (tick : ℕ) (old new : List EndingPacket) → AreOutBefore tick lines.now → Supports tick old new
        → NoLineBreaks setup.now old lines.now
        → NoLineBreaks setup.now new lines.now }
{}

/// A law: more Ending packets support all that the ones before did, at any tick.
pub fn more_support()
    ensures { (tick : ℕ) (xs ys zs : List EndingPacket) → Supports tick (xs ++ zs) (xs ++ ys ++ zs) }
{}

/// A law: an Ending packet that is out now supports all that it did while it was under way, for lines that were out before it.
pub fn out_supports()
    ensures { (tick out : ℕ) (ending : EndingPacket) (xs ys : List EndingPacket) → tick ≤ out
        → Supports tick (xs ++ is_under_way ending ∷ ys) (xs ++ is_out out ending ∷ ys) }
{}

/// A law: where no line of a list breaks a clause, the packets of an open connection go to the server of its opening, or would were that server
/// not down. So all of them go to one server, from the opening to the retirement; but one that was under way at the opening is free.
pub fn keeps_server(setup: &Setup, lines: &[Line])
    ghost endings: { List EndingPacket }
    requires { NoLineBreaks setup.now endings lines.now }
    ensures { ConnectionsKeepServers lines.now }
{}

/// A law: where no line of a list breaks a clause, a line that opens a connection after its virtual address was switched to a pool uses that
/// pool or a later one.
pub fn opens_newer(setup: &Setup, lines: &[Line])
    ghost endings: { List EndingPacket }
    requires { NoLineBreaks setup.now endings lines.now }
    ensures { OpeningsFollowSwitches lines.now }
{}
