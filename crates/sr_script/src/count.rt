ghost use Rattle.std.specs.Prelude.{◌≡◌, ◌≤◌, map, length, IfOk};
ghost use Rattle.sr_script.specs.Fault.{seen};
ghost use Rattle.sr_script.specs.Judge.{some, at_most};
ghost use Rattle.toml.specs.View.{view};

use crate::Why;
use toml::Value;

/// The elements of an array, of which there is one at least.
pub fn some(values: &[Value], why: Why) -> Result<&[Value], Why>
    ensures value { seen (λ vs. map view vs.now) result ≡ some why (map view values.now) }
{
    if values.is_empty() {
        Err(why)
    } else {
        Ok(values)
    }
}

/// The elements of an array, of which there are so many at most.
pub fn at_most(values: &[Value], most: usize, why: Why) -> Result<&[Value], Why>
    ensures value { seen (λ vs. map view vs.now) result ≡ at_most most why (map view values.now) }
    ensures bound { IfOk result (λ vs. length vs.now ≤ most) }
{
    if values.len() <= most {
        Ok(values)
    } else {
        Err(why)
    }
}
