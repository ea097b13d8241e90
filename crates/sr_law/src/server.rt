ghost use Rattle.std.specs.Prelude.{◌≡◌, reverse};
ghost use Rattle.sr_law.specs.Server.{is_right_choice, meets_server};

use crate::givings::{has_pool, last_version};
use crate::{Choice, Line, Pools};

// The choice's version was last given its pool, and its server is the one that the hash picks.
fn is_right_choice(pools: &Pools, before: &[Line], choice: Choice) -> bool
    ensures { result ≡ is_right_choice pools.now (reverse before.now) (Some choice) }
{
    has_pool(
        last_version(before, choice.key.vip, choice.version),
        choice.pool,
    ) && match pools.server(choice.pool, choice.key) {
        Some(server) => server == choice.server,
        None => false,
    }
}

// The line names the right server, if any.
pub(crate) fn meets_server(pools: &Pools, before: &[Line], line: &Line) -> bool
    ensures { result ≡ meets_server pools.now (reverse before.now) line.now }
{
    match line.choice() {
        Some(choice) => is_right_choice(pools, before, choice),
        None => true,
    }
}
