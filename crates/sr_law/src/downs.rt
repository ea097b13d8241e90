ghost use Rattle.std.specs.Prelude.{◌≡◌, reverse};
ghost use Rattle.std.specs.List.{list_any};
ghost use Rattle.sr_law.specs.TakenDown.{takes_down, is_down, takes_down_before, is_known_down};

use crate::Line;

// The line takes this server down.
fn takes_down(server: u32, line: &Line) -> bool
    ensures { result ≡ takes_down server line.now }
{
    match *line {
        Line::TakenDown { server: down, .. } => down == server,
        _ => false,
    }
}

// The server was taken down.
pub(crate) fn is_down(before: &[Line], server: u32) -> bool
    ensures { result ≡ is_down (reverse before.now) server }
{
    before.iter().rev().any(|line| takes_down(server, line))
}

// The line takes this server down before this tick.
fn takes_down_before(server: u32, tick: u64, line: &Line) -> bool
    ensures { result ≡ takes_down_before server tick line.now }
{
    takes_down(server, line) && line.out() < tick
}

/// The controller did something else after it had taken this server down, both before this tick.
#[tactic(auto, using(crate::proofs::Newest::newest_more))]
pub fn is_known_down(before: &[Line], server: u32, tick: u64) -> bool
    ensures { result ≡ is_known_down (reverse before.now) server tick }
{
    let mut down = false;
    let mut known = false;
    for line in before {
        if line.is_controller() && line.out() < tick && down {
            known = true;
        }
        if takes_down_before(server, tick, line) {
            down = true;
        }
    }
    known
}
