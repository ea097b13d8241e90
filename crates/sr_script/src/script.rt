ghost use Rattle.std.specs.Prelude.{◌≡◌, IfOk};
ghost use Rattle.sr_script.specs.Fault.{Answers};
ghost use Rattle.sr_script.specs.Fitting.{IsFitting};
ghost use Rattle.sr_script.specs.Script.{spelled, Parses, IsSpelled, TakesScripts, NotTomlIsTrue};
ghost use Rattle.sr_script.specs.Walk.{script_in};
ghost use Rattle.toml.specs.View.{table_view};

use crate::change_list::changes;
use crate::known::only_known;
use crate::section::Section;
use crate::servers::servers;
use crate::shape_table::shape;
use crate::vip_list::{VipList, vips};
use crate::{ParseRefusal, ScriptRefusal, Why};
use sr_base::{Change, Pool, Shape};
use std::alloc::Global;
use toml::Table;

/// What a run is to do.
#[derive(Debug, Drop)]
pub struct Script {
    /// The sizes of the tables and the times.
    pub shape: Shape,
    /// The virtual addresses, 1 to 16: IPv4 address and port, all different.
    pub vips: Vec<(u32, u16)>,
    /// The servers, 1 to 65,536: IPv4 address and port, all different.
    pub servers: Vec<(u32, u16)>,
    /// The first pool of each virtual address, in their order.
    pub first: Vec<Pool>,
    /// The changes, at most 4,096, in the order in which they are due.
    pub changes: Vec<Change>,
}

/// The script that a text is, or the first fault of the walk through it. Memory may run out on any text that isn't blank.
#[tactic(auto, using(crate::proofs::Parsing::parses_spelled, crate::proofs::Parsing::parses_takes, crate::proofs::Parsing::parses_not_toml, crate::proofs::Fitting::parses_fitting))]
pub fn parse(alloc: Global, bytes: &[u8]) -> Result<Script, ParseRefusal>
    // The script of a good tree, and else the first fault of the walk through it, or that there is no tree.
    ensures walk { Parses bytes.now result }
    // A script is what the schema has the tree spell, and each text whose tree spells a script is taken.
    ensures schema { IfOk result (IsSpelled bytes.now) }
    ensures takes { TakesScripts bytes.now result }
    ensures not_toml { NotTomlIsTrue bytes.now result }
    // A script's numbers are those of a layout, which its first pools and its changes fit.
    ensures fitting { IfOk result (λ s. IsFitting (spelled s)) }
{
    read(alloc, bytes)
}

fn read(alloc: Global, bytes: &[u8]) -> Result<Script, ParseRefusal>
    ensures { Parses bytes.now result }
{
    match toml::table_from_slice(alloc, bytes) {
        Ok(table) => script_in(alloc, &table),
        Err(error) => {
            if error.is_memory() {
                return Err(ParseRefusal::Memory);
            }
            Err(ParseRefusal::Script(ScriptRefusal {
                why: Why::NotToml,
                path: String::new(alloc),
            }))
        }
    }
}

// The script that a tree is.
fn script_in(alloc: Global, table: &Table) -> Result<Script, ParseRefusal>
    ensures { Answers spelled result (script_in (table_view table.now)) }
{
    only_known(
        alloc,
        Section::Top,
        table,
        &["shape", "servers", "vip", "change"],
    )?;
    let shape = shape(alloc, table)?;
    let servers = servers(alloc, table)?;
    let count = servers.len();
    let vips = vips(alloc, shape.pool_max, count, table)?;
    let vip_count = vips.addresses.len();
    let changes = changes(alloc, shape.pool_max, count, vip_count, table)?;
    let VipList { addresses, pools } = vips;
    Ok(Script {
        shape,
        vips: addresses,
        servers,
        first: pools,
        changes,
    })
}
