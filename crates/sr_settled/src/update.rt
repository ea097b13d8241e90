ghost use Rattle.std.specs.Prelude.{◌≡◌, reverse};
ghost use Rattle.sr_law.specs.Groups.{after_gives, is_over, last_of_update};
ghost use Rattle.sr_law.specs.Settled.{update_settled};

use sr_law::{Line, Setup, is_of_update};

// The last line of an update.
#[tactic(auto, using(sr_law::proofs::Newest::newest_more))]
fn last_of_update(lines: &[Line]) -> Option<Line>
    ensures { result ≡ last_of_update (reverse lines.now) }
{
    let mut last = None;
    for line in lines {
        if is_of_update(line) {
            last = Some(*line);
        }
    }
    last
}

// The last one after the first lines, of which there is one for each virtual address.
fn last_after_gives(vips: usize, lines: &[Line]) -> Option<Line>
    ensures { result ≡ last_of_update (after_gives vips (reverse lines.now)) }
{
    if vips <= lines.len() {
        last_of_update(&lines[vips..])
    } else {
        None
    }
}

// It is none, or finished its update.
fn is_over(last: Option<Line>) -> bool
    ensures { result ≡ is_over last }
{
    match last {
        None => true,
        Some(Line::Finished { .. }) => true,
        Some(_) => false,
    }
}

// No update is under way.
pub(crate) fn update_settled(setup: &Setup, lines: &[Line]) -> bool
    ensures { result ≡ update_settled setup.now (reverse lines.now) }
{
    is_over(last_after_gives(setup.pools.vips(), lines))
}
