ghost use Rattle.std.specs.Prelude.{◌≡◌, None};
ghost use Rattle.sr_base.specs.declared.vip_word.Phase.TheVariants.{Transit as InTransit, Steady as InSteady};
ghost use Rattle.sr_update.specs.Waits.{first_before_finish};

use crate::{Closing, Passed, Update};
use sr_shadow::Shadow;
use std::marker::Model;

/// An update whose virtual address is in transit: a new connection gets the number that is given, unless the filter
/// says that it may be an old one.
#[derive(Debug, Drop)]
pub struct Moving {
    update: Update,
}

impl Model for Moving {
    ghost use Rattle.sr_update.specs.Phases.{InPhase};
    ghost use Rattle.sr_base.specs.declared.vip_word.Phase.TheVariants.{Transit as InTransit};

    ghost Value = { InPhase };

    ghost view = { λ s. record { phase = InTransit; update = s.update } };
}

impl Moving {
    // An update in transit.
    pub(crate) fn of(update: Update) -> Moving
        ensures { result ≡ record { phase = InTransit; update = update } }
    {
        Moving { update }
    }

    /// The update.
    pub fn update(&self) -> &Update
        ensures { result.now ≡ self.now.update }
    {
        &self.update
    }

    /// The virtual address is steady again, with the number that is given. No pending key has the one that is
    /// replaced, so no packet of it can still need the filter.
    pub fn finish(self, passed: Passed, shadow: &Shadow) -> Closing
        requires { first_before_finish self.update.vip self.update.replaced shadow.now.book.entries ≡ None }
        ensures { result ≡ record self { phase = InSteady } }
    {
        Closing::of(self.update)
    }
}
