ghost use Rattle.std.specs.Prelude.{◌≡◌, reverse};
ghost use Rattle.sr_law.specs.Opening.{opened, opened_by, retires, opening, is_open};

use crate::{Line, Opening, Verdict};
use sr_base::{Key, Kind};

// The opening that a line of this verdict and tick makes.
fn opened(out: u64, verdict: Verdict) -> Option<Opening>
    ensures { result ≡ opened out verdict }
{
    match verdict {
        Verdict::To {
            server,
            version,
            pool,
        } => Some(Opening {
            out,
            server,
            version,
            pool,
        }),
        _ => None,
    }
}

/// The opening that a line makes of a connection that isn't open.
pub fn opened_by(line: &Line, c: Key) -> Option<Opening>
    ensures { result ≡ opened_by line.now c }
{
    match *line {
        Line::Packet {
            out,
            key,
            kind: Kind::Opener,
            verdict,
            ..
        } => if key.same(c) {
            opened(out, verdict)
        } else {
            None
        },
        Line::Answer {
            out,
            key,
            verdict,
            ..
        } => if key.same(c) {
            opened(out, verdict)
        } else {
            None
        },
        _ => None,
    }
}

/// The line says that this connection is over.
pub fn retires(line: &Line, c: Key) -> bool
    ensures { result ≡ retires line.now c }
{
    match *line {
        Line::Retired { key, .. } => key.same(c),
        _ => false,
    }
}

// The opening of a connection.
#[tactic(auto, using(crate::proofs::Newest::newest_more))]
pub(crate) fn opening(before: &[Line], c: Key) -> Option<Opening>
    ensures { result ≡ opening (reverse before.now) c }
{
    let mut found = None;
    for line in before {
        if retires(line, c) {
            found = None;
        } else if found.is_none() {
            found = opened_by(line, c);
        }
    }
    found
}

// A connection is open.
pub(crate) fn is_open(before: &[Line], c: Key) -> bool
    ensures { result ≡ is_open (reverse before.now) c }
{
    opening(before, c).is_some()
}
