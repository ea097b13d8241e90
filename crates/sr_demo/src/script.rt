ghost use Rattle.std.specs.Prelude.{◌≡◌, IfOk};
ghost use Rattle.sr_demo.specs.Script.{demo_script};
ghost use Rattle.sr_script.specs.Fitting.{IsFitting};
ghost use Rattle.sr_script.specs.Script.{spelled};

use sr_script::{ParseRefusal, Script, parse};
use std::alloc::{AllocError, Global};

/// The script of the demonstration.
pub const SCRIPT: &str = "servers = [
  \"10.1.0.1:80\", \"10.1.0.2:80\", \"10.1.0.3:80\", \"10.1.0.4:80\",
  \"10.1.0.5:80\", \"10.1.0.6:80\", \"10.1.0.7:80\", \"10.1.0.8:80\",
  \"10.1.0.9:80\", \"10.1.0.10:80\", \"10.1.0.11:80\", \"10.1.0.12:80\",
  \"10.1.0.13:80\", \"10.1.0.14:80\", \"10.1.0.15:80\", \"10.1.0.16:80\",
]
[shape]
pipes = 8
idle_ms = 1000
[[vip]]
addr = \"192.0.2.1:80\"
pool = [0, 1, 2, 3]
[[vip]]
addr = \"192.0.2.2:80\"
pool = [4, 5, 6, 7]
[[vip]]
addr = \"192.0.2.3:80\"
pool = [8, 9, 10, 11]
[[vip]]
addr = \"192.0.2.4:80\"
pool = [12, 13, 14, 15]
[[change]]
at_ms = 1500
vip = 0
pool = [1, 2, 3]
[[change]]
at_ms = 3000
vip = 1
pool = [5, 6, 7]
[[change]]
at_ms = 4500
vip = 2
pool = [9, 10, 11]
[[change]]
at_ms = 6000
vip = 3
pool = [13, 14, 15]
[[change]]
at_ms = 7500
vip = 0
pool = [0, 2, 3]
[[change]]
at_ms = 9000
vip = 1
pool = [4, 6, 7]
[[change]]
at_ms = 10500
vip = 2
pool = [8, 10, 11]
[[change]]
at_ms = 12000
vip = 3
pool = [12, 14, 15]
[[change]]
at_ms = 13500
vip = 0
pool = [0, 1, 3]
[[change]]
at_ms = 15000
vip = 1
pool = [4, 5, 7]
[[change]]
at_ms = 16500
vip = 2
pool = [8, 9, 11]
[[change]]
at_ms = 18000
vip = 3
pool = [12, 13, 15]
";

/// Parses the script of the demonstration, which is one.
pub fn demo_script(alloc: Global) -> Result<Script, AllocError>
    ensures script { IfOk result (λ s. spelled s ≡ demo_script) }
    ensures fitting { IfOk result (λ s. IsFitting (spelled s)) }
{
    match parse(alloc, SCRIPT.as_bytes()) {
        Ok(script) => Ok(script),
        Err(ParseRefusal::Memory) => Err(AllocError),
        Err(ParseRefusal::Script(_)) => unreachable!(),
    }
}
