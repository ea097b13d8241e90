ghost use Rattle.std.specs.Prelude.{◌≡◌};
ghost use Rattle.sr_stepped.specs.Settling.{SettledOver};

use sr_ctl::{Controller, settling_is_the_machines};
use sr_machine::{Actor, Settled};
use sr_plain::PlainBoard;

/// The controller's turns until nothing is left to do, and how they end.
pub fn settle(board: &mut PlainBoard, controller: &mut Controller) -> Settled
    requires { controller.old.config.layout ≡ board.old.layout }
    ensures layout { board.new.layout ≡ board.old.layout }
    ensures config { controller.new.config ≡ controller.old.config }
    ensures settled { SettledOver result board.old controller.old board.new controller.new }
{
    settling_is_the_machines();
    let mut actor = board.as_actor(Actor::Controller);
    controller.settle_all(&mut actor)
}
