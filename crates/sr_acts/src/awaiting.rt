ghost use Rattle.std.specs.Prelude.{◌≡◌, true};
ghost use Rattle.sr_acts.specs.Pending.{awaits};

use crate::versions::has_version;
use sr_base::Version;
use sr_shadow::Entry;

// For which pending entries an update waits.
#[derive(Clone, Copy)]
pub(crate) enum Awaiting {
    // Before it leaves Recording: for those of the virtual address that were taken before the mark.
    BeforeHold { vip: u8, mark: u64 },
    // Before it leaves Transit: for those of the virtual address with the version that is replaced.
    BeforeFinish { vip: u8, replaced: Version },
}

impl Awaiting {
    // Whether it waits for a pending entry.
    pub(crate) fn awaits(&self, entry: &Entry) -> bool
        ensures { result ≡ awaits self.now entry.now }
    {
        match self {
            Awaiting::BeforeHold { vip, mark } => {
                entry.place.is_none() && (entry.key.vip == *vip && entry.taken < *mark)
            }
            Awaiting::BeforeFinish { vip, replaced } => {
                entry.place.is_none() && has_version(*vip, *replaced, entry)
            }
        }
    }

    // Whether the other waits for the same.
    pub(crate) fn is(&self, other: &Awaiting) -> bool
        ensures { result ≡ true → self.now ≡ other.now }
    {
        match self {
            Awaiting::BeforeHold { vip, mark } => match other {
                Awaiting::BeforeHold {
                    vip: at,
                    mark: other,
                } => vip == at && mark == other,
                Awaiting::BeforeFinish { .. } => false,
            },
            Awaiting::BeforeFinish { vip, replaced } => match other {
                Awaiting::BeforeHold { .. } => false,
                Awaiting::BeforeFinish {
                    vip: at,
                    replaced: other,
                } => vip == at && replaced.number() == other.number(),
            },
        }
    }
}
