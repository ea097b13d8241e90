ghost use Rattle.std.specs.Prelude.{◌≡◌, ◌-◌, ◌==◌, ◌≤◌, IfOk, drop, filter, map, take};
ghost use Rattle.std.specs.List.{range_with_len};
ghost use Rattle.sr_hash.specs.Uses.{pipe_number};
ghost use Rattle.sr_picks.specs.Run.{packets_in, shares_of};

use sr_base::Packet;
use sr_rounds::{Round, Timed};
use sr_steps::packets_on;
use std::alloc::{AllocError, Global};

/// What each of so many pipes handles of a round's packets.
pub(crate) fn shares(
    alloc: Global,
    packets: &[Timed],
    round: &Round,
    pipes: u8,
) -> Result<Vec<Vec<Packet>>, AllocError>
    ensures { IfOk result (λ shares. map (λ v. v.items) shares.items ≡ shares_of pipes (packets_in packets.now round.now)) }
{
    let mut shares = Vec::new(alloc);
    for pipe in 0..pipes {
        shares.push(packets_on(alloc, packets, round, pipes, pipe)?)?;
    }
    Ok(shares)
}
