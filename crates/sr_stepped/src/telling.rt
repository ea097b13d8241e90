ghost use Rattle.std.specs.Prelude.{◌≡◌};
ghost use Rattle.sr_stepped.specs.Rounds.{ToldOn};

use sr_ctl::Controller;
use sr_machine::Actor;
use sr_plain::PlainBoard;

/// The controller is told the time, unless its clock is past it.
pub fn tell(board: &mut PlainBoard, controller: &mut Controller, ms: u64)
    requires { controller.old.config.layout ≡ board.old.layout }
    ensures layout { board.new.layout ≡ board.old.layout }
    ensures config { controller.new.config ≡ controller.old.config }
    ensures told { ToldOn ms board.old controller.old board.new controller.new }
{
    if !controller.can_be_told(ms) {
        return;
    }
    let mut actor = board.as_actor(Actor::Controller);
    controller.due(&mut actor, ms);
}
