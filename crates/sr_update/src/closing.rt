ghost use Rattle.std.specs.Prelude.{◌≡◌, Some};
ghost use Rattle.sr_base.specs.declared.vip_word.Phase.TheVariants.{Steady as InSteady};
ghost use Rattle.sr_update.specs.Numbers.{state_of, with_state};
ghost use Rattle.sr_update.specs.declared.number_state.NumberState.TheVariants.{Current, Draining};

use crate::{NumberState, Numbers, Passed, Update};
use std::marker::Model;

/// An update whose virtual address is steady again. Packets that took up work before may still read the filter.
#[derive(Debug, Drop)]
pub struct Closing {
    update: Update,
}

impl Model for Closing {
    ghost use Rattle.sr_update.specs.Phases.{InPhase};
    ghost use Rattle.sr_base.specs.declared.vip_word.Phase.TheVariants.{Steady as InSteady};

    ghost Value = { InPhase };

    ghost view = { λ s. record { phase = InSteady; update = s.update } };
}

impl Closing {
    // An update that ends.
    pub(crate) fn of(update: Update) -> Closing
        ensures { result ≡ record { phase = InSteady; update = update } }
    {
        Closing { update }
    }

    /// The update.
    pub fn update(&self) -> &Update
        ensures { result.now ≡ self.now.update }
    {
        &self.update
    }

    /// The update is over: the number that it replaced is Draining.
    pub fn done(self, passed: Passed, numbers: &mut Numbers)
        requires { state_of self.update.vip self.update.replaced numbers.old ≡ Some Current }
        ensures { numbers.new ≡ with_state self.update.vip self.update.replaced Draining numbers.old }
    {
        let update = self.update;
        numbers.put(update.vip, update.replaced, NumberState::Draining);
    }
}
