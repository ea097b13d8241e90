ghost use Rattle.std.specs.Prelude.{◌≡◌, reverse};
ghost use Rattle.sr_law.specs.Given.{given_by, last_given, last_version, has_pool, has_version};

use crate::{Giving, Line};
use sr_base::Version;

// What the line gives to this virtual address.
fn given_by(line: &Line, vip: u8) -> Option<Giving>
    ensures { result ≡ given_by line.now vip }
{
    match *line {
        Line::Given {
            vip: to,
            version,
            pool,
            ..
        } => if to == vip {
            Some(Giving { version, pool })
        } else {
            None
        },
        _ => None,
    }
}

// What a virtual address was last given.
#[tactic(auto, using(crate::proofs::Newest::newest_more))]
pub(crate) fn last_given(before: &[Line], vip: u8) -> Option<Giving>
    ensures { result ≡ last_given (reverse before.now) vip }
{
    let mut last = None;
    for line in before {
        if let Some(giving) = given_by(line, vip) {
            last = Some(giving);
        }
    }
    last
}

// What a virtual address was last given under this version.
#[tactic(auto, using(crate::proofs::Newest::newest_more))]
pub(crate) fn last_version(before: &[Line], vip: u8, version: Version) -> Option<Giving>
    ensures { result ≡ last_version (reverse before.now) vip version }
{
    let mut last = None;
    for line in before {
        if let Some(giving) = given_by(line, vip) {
            if giving.version.number() == version.number() {
                last = Some(giving);
            }
        }
    }
    last
}

/// There is one, of this pool.
pub fn has_pool(giving: Option<Giving>, pool: u64) -> bool
    ensures { result ≡ has_pool giving pool }
{
    match giving {
        Some(giving) => giving.pool == pool,
        None => false,
    }
}

// There is one, of this version.
pub(crate) fn has_version(giving: Option<Giving>, version: u8) -> bool
    ensures { result ≡ has_version giving version }
{
    match giving {
        Some(giving) => giving.version.number() == version,
        None => false,
    }
}
