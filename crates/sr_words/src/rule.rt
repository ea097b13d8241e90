ghost use Rattle.std.specs.Prelude.{◌≡◌};

use crate::{Heard, Seated};
use atomic_table::{Join, Play, Shared, Split, TableRule};
use sr_acts::MachineConfig;
use std::marker::{Brand, PhantomData};

/// The rule of the words: they and the views of the seats show a state that events lead to.
pub struct Knowing;

impl TableRule<(), Seated, MachineConfig> for Knowing {
    ghost use Rattle.sr_words.specs.Rule.{Ruled};
    ghost use Rattle.sr_words.specs.Seats.{first_seated};

    ghost holds = { Ruled };

    ghost first = { first_seated };
}

/// The words as threads share them.
pub type Words = Shared<(), Seated, MachineConfig, Knowing>;

/// What a step is made for, and what was told before it.
pub trait Telling {
    ghost use Rattle.sr_machine.specs.Config.{Config};
    ghost use Rattle.sr_words.specs.declared.heard.Heard.{Heard};

    ghost config: { Config };

    ghost heard: { Heard };
}

impl Telling for Brand {
    ghost use Rattle.sr_words.specs.declared.heard.Heard.TheVariants.{Nothing};
    ghost use Rattle.sr_words.specs.Seats.{no_config};

    ghost config = { no_config };

    ghost heard = { Nothing };
}

/// A step of a seat's first actor.
pub struct Making<T> {
    of: PhantomData<T>,
}

impl<T: Telling> Play<(), Seated> for Making<T> {
    ghost use Rattle.sr_words.specs.Steps.{Makes};

    ghost then = { λ s me found new. Makes T.config T.heard me.0 found new.0 × (new.1 ≡ me.1) };
}

/// A look at what a seat's actors know.
pub struct Looking<T> {
    of: PhantomData<T>,
}

impl<T: Telling> Play<(), Seated> for Looking<T> {
    ghost use Rattle.sr_words.specs.Steps.{Looks};

    ghost then = { λ s me found new. Looks T.config T.heard me.0 new.0 × (new.1 ≡ me.1) };
}

/// A look by a seat of all actors: it comes to know the words.
pub struct Learning<T> {
    of: PhantomData<T>,
}

impl<T: Telling> Play<(), Seated> for Learning<T> {
    ghost use Rattle.sr_words.specs.Steps.{Learns};

    ghost then = { λ s me found new. Learns T.config T.heard me.0 new.0 × (new.1 ≡ me.1) };
}

/// The second view of a seat is a seat's of its own.
pub struct Second;

impl Split<Seated> for Second {
    ghost use Rattle.sr_words.specs.Seats.{only_second, seated, without_second};

    ghost left = { λ v. seated (without_second v.actors) };

    ghost right = { λ v. seated (only_second v.actors) };
}

/// One seat for the actors of two.
pub struct Together;

impl Join<Seated> for Together {
    ghost use Rattle.std.specs.Prelude.{[]};
    ghost use Rattle.sr_words.specs.Seats.{seated, together};

    ghost both = { together };

    ghost spent = { seated [] };
}
