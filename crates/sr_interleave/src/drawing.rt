//! The generator that picks, as a plain number.

ghost use Rattle.std.specs.Prelude.{◌≡◌, ◌^◌, ◌<◌};
ghost use Rattle.sr_gen.specs.Generator.{drawn, next_state};

const MULTIPLIER: u64 = 6364136223846793005;

const INCREMENT: u64 = 1442695040888963407;

/// The state after this one.
pub(crate) fn next_state(state: u64) -> u64
    ensures { result ≡ next_state state }
{
    state.wrapping_mul(MULTIPLIER).wrapping_add(INCREMENT)
}

/// What is drawn in this state.
pub(crate) fn drawn(state: u64) -> u32
    ensures { result ≡ drawn state }
{
    (state >> 33) as u32
}
