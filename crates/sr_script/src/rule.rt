ghost use Rattle.std.specs.Prelude.{◌≡◌, ◌≤◌, IfOk, IsTrue};
ghost use Rattle.sr_script.specs.Fault.{seen};
ghost use Rattle.sr_script.specs.Judge.{fits, most_of, number};
ghost use Rattle.toml.specs.View.{view};

use crate::Why;
use crate::tree::whole;
use toml::Value;

/// Which whole numbers a value may be.
#[derive(Clone, Copy, Debug)]
pub enum Rule {
    /// From the first number to the second.
    Between(u64, u64),
    /// A power of two up to this one.
    PowerUpTo(u64),
    /// A multiple of 4, from 4 up to this one.
    FoursUpTo(u64),
    /// A position among so many, from 0.
    Below(u64),
}

fn fits(rule: Rule, n: u64) -> bool
    ensures value { result ≡ fits rule n }
    ensures bound { IsTrue result → n ≤ most_of rule }
{
    match rule {
        Rule::Between(low, high) => low <= n && n <= high,
        Rule::PowerUpTo(most) => n.is_power_of_two() && n <= most,
        Rule::FoursUpTo(most) => 4 <= n && n <= most && n % 4 == 0,
        Rule::Below(count) => n < count,
    }
}

/// The whole number of a rule that a value is, and else this reason.
pub fn number(value: &Value, rule: Rule, why: Why) -> Result<u64, Why>
    ensures value { result ≡ number rule why (view value.now) }
    ensures bound { IfOk result (λ n. n ≤ most_of rule) }
{
    let n = whole(value)?;
    if n < 0 {
        return Err(why);
    }
    let n = n as u64;
    if fits(rule, n) { Ok(n) } else { Err(why) }
}
