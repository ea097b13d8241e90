ghost use Rattle.std.specs.Prelude.{◌≡◌, reverse};
ghost use Rattle.sr_law.specs.Cause.{all_in_use, some_all_in_use};
ghost use Rattle.sr_law.specs.Number.{is_in_use};
ghost use Rattle.sr_audit.specs.Audit.{Tells};

use crate::audit::Audit;
use sr_law::{Line, Setup};

// The version is the last one of this virtual address, or an open connection has it.
pub(crate) fn is_in_use(audit: &Audit, setup: &Setup, before: &[Line], vip: u8, version: u8) -> bool
    requires { Tells setup.now audit.now (reverse before.now) }
    ensures { result ≡ is_in_use (reverse before.now) vip version }
{
    let last = match audit.givings.last(vip) {
        Some(giving) => giving.version.number() == version,
        None => false,
    };
    last || audit.holders.hold(vip, version)
}

// Each version below this number is in use for this virtual address.
fn all_in_use(audit: &Audit, setup: &Setup, before: &[Line], vip: u8, versions: u8) -> bool
    requires { Tells setup.now audit.now (reverse before.now) }
    ensures { result ≡ all_in_use (reverse before.now) vip versions }
{
    let mut all = true;
    for version in 0..versions {
        if !is_in_use(audit, setup, before, vip, version) {
            all = false;
        }
    }
    all
}

// Of some virtual address below this number all versions are in use.
pub(crate) fn some_all_in_use(
    audit: &Audit,
    setup: &Setup,
    before: &[Line],
    versions: u8,
    vips: u8,
) -> bool
    requires { Tells setup.now audit.now (reverse before.now) }
    ensures { result ≡ some_all_in_use (reverse before.now) versions vips }
{
    let mut some = false;
    for vip in 0..vips {
        if all_in_use(audit, setup, before, vip, versions) {
            some = true;
        }
    }
    some
}
