ghost use Rattle.std.specs.Prelude.{◌≡◌};
ghost use Rattle.sr_base.specs.declared.vip_word.Phase.TheVariants.{Holding as InHolding, Transit as InTransit};

use crate::{Moving, Passed, Update};
use std::marker::Model;

/// An update whose virtual address holds new connections back.
#[derive(Debug, Drop)]
pub struct Holding {
    update: Update,
}

impl Model for Holding {
    ghost use Rattle.sr_update.specs.Phases.{InPhase};
    ghost use Rattle.sr_base.specs.declared.vip_word.Phase.TheVariants.{Holding as InHolding};

    ghost Value = { InPhase };

    ghost view = { λ s. record { phase = InHolding; update = s.update } };
}

impl Holding {
    // An update that holds.
    pub(crate) fn of(update: Update) -> Holding
        ensures { result ≡ record { phase = InHolding; update = update } }
    {
        Holding { update }
    }

    /// The update.
    pub fn update(&self) -> &Update
        ensures { result.now ≡ self.now.update }
    {
        &self.update
    }

    /// New connections get the number that is given from now on.
    pub fn switch(self, passed: Passed) -> Moving
        ensures { result ≡ record self { phase = InTransit } }
    {
        Moving::of(self.update)
    }
}
