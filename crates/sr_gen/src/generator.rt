ghost use Rattle.std.specs.Prelude.{◌≡◌, ℕ, ◌+◌, ◌^◌, ◌<◌};
ghost use Rattle.sr_gen.specs.Generator.{next_state, drawn};

use std::marker::Model;

const MULTIPLIER: u64 = 6364136223846793005;

const INCREMENT: u64 = 1442695040888963407;

/// A linear congruential generator of 64 bits, with the constants of Knuth's MMIX (The Art of Computer Programming, 3.3.4).
#[derive(Clone, Copy, Debug, PartialEq, Eq)]
pub struct Generator {
    state: u64,
}

impl Model for Generator {
    ghost Value = { ℕ };

    ghost view = { λ g. g.state };

    ghost inverse = { λ n. record { state = n } };
}

impl Generator {
    /// The generator that starts from this number.
    pub fn new(seed: u64) -> Generator
        ensures { result ≡ seed }
    {
        Generator { state: seed }
    }

    /// Makes a step, and draws the high 31 bits of the state after it.
    pub fn draw(&mut self) -> u32
        ensures state { self.new ≡ next_state self.old }
        ensures value { result ≡ drawn self.new }
        ensures bits { result < 2 ^ 31 }
    {
        self.state = self.state.wrapping_mul(MULTIPLIER).wrapping_add(INCREMENT);
        (self.state >> 33) as u32
    }
}
