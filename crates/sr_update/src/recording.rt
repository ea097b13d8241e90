ghost use Rattle.std.specs.Prelude.{◌≡◌, None};
ghost use Rattle.sr_base.specs.declared.vip_word.Phase.TheVariants.{Recording as InRecording, Holding as InHolding};
ghost use Rattle.sr_update.specs.Waits.{first_before_hold};

use crate::{Holding, Passed, Update};
use sr_shadow::Shadow;
use std::marker::Model;

/// An update whose virtual address records: new connections still get the number that is replaced, and set their
/// filter bits. It is made by `Numbers::given` alone.
#[derive(Debug, Drop)]
pub struct Recording {
    update: Update,
}

impl Model for Recording {
    ghost use Rattle.sr_update.specs.Phases.{InPhase};
    ghost use Rattle.sr_base.specs.declared.vip_word.Phase.TheVariants.{Recording as InRecording};

    ghost Value = { InPhase };

    ghost view = { λ s. record { phase = InRecording; update = s.update } };
}

impl Recording {
    // An update that begins.
    pub(crate) fn of(update: Update) -> Recording
        ensures { result ≡ record { phase = InRecording; update = update } }
    {
        Recording { update }
    }

    /// The update.
    pub fn update(&self) -> &Update
        ensures { result.now ≡ self.now.update }
    {
        &self.update
    }

    /// The virtual address holds new connections back from now on. The mark is how many entries were ever taken when
    /// the drain after the grace had ended: no key that was taken before it is pending any more.
    pub fn hold(self, passed: Passed, shadow: &Shadow, mark: u64) -> Holding
        requires { first_before_hold self.update.vip mark shadow.now.book.entries ≡ None }
        ensures { result ≡ record self { phase = InHolding } }
    {
        Holding::of(self.update)
    }
}
