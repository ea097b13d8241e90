ghost use Rattle.std.specs.Prelude.{◌≡◌, map};
ghost use Rattle.std.specs.List.{list_any};
ghost use Rattle.std.specs.Str.{bytes_eq};
ghost use Rattle.sr_script.specs.Fault.{Answers};
ghost use Rattle.sr_script.specs.Judge.{keys_of};
ghost use Rattle.sr_script.specs.Walk.{only_known};
ghost use Rattle.toml.specs.View.{table_view};

use crate::fault::at_key;
use crate::section::Section;
use crate::{ParseRefusal, Why};
use std::alloc::Global;
use toml::Table;

/// Tests that a table has known keys alone. The refusal names the first other one, in byte order.
#[tactic(auto, using(crate::proofs::Trees::keys_of_view), unfolding(crate::specs::Walk::only_known))]
pub fn only_known(
    alloc: Global,
    section: Section,
    table: &Table,
    known: &[&str],
) -> Result<(), ParseRefusal>
    ensures { Answers (λ u. u) result (only_known section (map (λ k. k.now) known.now) (keys_of (table_view table.now))) }
{
    for key in table.keys() {
        if !is_among(known, key.as_str()) {
            return Err(at_key(alloc, Why::UnknownKey, section, key.as_str()));
        }
    }
    Ok(())
}

fn is_among(known: &[&str], key: &str) -> bool
    ensures { result ≡ list_any (bytes_eq key.now) (map (λ k. k.now) known.now) }
{
    for other in known {
        if key == *other {
            return true;
        }
    }
    false
}
