ghost use Rattle.std.specs.Prelude.{◌≡◌, IfOk};
ghost use Rattle.sr_script.specs.Fitting.{IsFitting};
ghost use Rattle.sr_script.specs.Script.{spelled};
ghost use Rattle.sr_scripted.specs.Config.{config_of};

use sr_acts::MachineConfig;
use sr_base::Layout;
use sr_law::Pools;
use sr_script::Script;
use std::alloc::{AllocError, Global};

/// The machine that a script is for.
pub fn config_of(alloc: Global, script: Script) -> Result<MachineConfig, AllocError>
    requires { IsFitting (spelled script) }
    ensures { IfOk result (λ k. k ≡ config_of (spelled script)) }
{
    let Script {
        shape,
        servers,
        first,
        changes,
        ..
    } = script;
    let pools = Pools::new(alloc, &first, &changes)?;
    match Layout::new(shape, first.len() as u8, servers.len() as u32) {
        Ok(layout) => Ok(MachineConfig::new(&layout, pools, changes)),
        Err(_) => unreachable!(),
    }
}
