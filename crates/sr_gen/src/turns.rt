ghost use Rattle.std.specs.Prelude.{◌≡◌};
ghost use Rattle.sr_gen.specs.Turns.{connection_number, round_of};

/// How many connections take turns at a time: each has one packet in a round.
pub const ROUND: u32 = 100;

/// How many packets they have together, in ten rounds.
pub const BLOCK: u32 = 1000;

/// The connection, from 0, that packet `t` has, from 0.
pub fn connection_number(t: u32) -> u32
    ensures { result ≡ connection_number t }
{
    t / BLOCK * ROUND + t % ROUND
}

/// Which of its connection's ten packets packet `t` is, from 0.
pub fn round(t: u32) -> u32
    ensures { result ≡ round_of t }
{
    t % BLOCK / ROUND
}
