ghost use Rattle.std.specs.Prelude.{◌≡◌, ◌≤◌, map, length, vec_len, IfOk};
ghost use Rattle.sr_script.specs.Fault.{seen, Answers};
ghost use Rattle.sr_script.specs.VipList.{parted};
ghost use Rattle.sr_script.specs.Walk.{vip_address, vip_table, vip_in, vip_values, vips_in, vips_of};
ghost use Rattle.toml.specs.View.{view, table_view};

use crate::address_list::AddressList;
use crate::count::{at_most, some};
use crate::fault::{at_item, at_key, placed};
use crate::known::only_known;
use crate::pool_array::pool;
use crate::section::Section;
use crate::servers::new_address;
use crate::tree::{elements, table, wanted};
use crate::{ParseRefusal, Why};
use sr_base::{MOST_VIPS, Pool};
use std::alloc::Global;
use toml::{Table, Value};

/// The virtual addresses of a script and their first pools, in the script's order.
#[derive(Debug, Drop)]
pub struct VipList {
    /// The addresses and ports.
    pub addresses: Vec<(u32, u16)>,
    /// The pools.
    pub pools: Vec<Pool>,
}

/// The virtual addresses of a script.
#[tactic(auto, using(crate::proofs::Readings::fails_then), unfolding(crate::specs::Walk::vips_of))]
pub fn vips(
    alloc: Global,
    pool_max: u8,
    servers: usize,
    script: &Table,
) -> Result<VipList, ParseRefusal>
    requires { servers ≤ 65536 }
    ensures value { Answers parted result (vips_of pool_max servers (table_view script.now)) }
    ensures bound { IfOk result (λ v. vec_len v.addresses ≤ 16) }
{
    match vip_values(script) {
        Ok(values) => vips_from(alloc, pool_max, servers, values),
        Err(why) => Err(at_key(alloc, why, Section::Top, "vip")),
    }
}

// The array of virtual addresses.
#[tactic(auto, unfolding(crate::specs::Walk::vip_values))]
fn vip_values(script: &Table) -> Result<&[Value], Why>
    ensures value { seen (λ vs. map view vs.now) result ≡ vip_values (table_view script.now) }
    ensures bound { IfOk result (λ vs. length vs.now ≤ 16) }
{
    let value = wanted(script, "vip")?;
    let values = some(elements(value)?, Why::OutOfRange)?;
    at_most(values, MOST_VIPS as usize, Why::TooManyVips)
}

// The virtual addresses of the array.
fn vips_from(
    alloc: Global,
    pool_max: u8,
    servers: usize,
    values: &[Value],
) -> Result<VipList, ParseRefusal>
    requires { servers ≤ 65536 }
    ensures value { Answers parted result (vips_in pool_max servers (map view values.now)) }
    ensures count { IfOk result (λ v. vec_len v.addresses ≡ length values.now) }
{
    let mut addresses = AddressList::new(alloc);
    let mut pools = Vec::new(alloc);
    for value in values {
        let (address, pool) = vip_in(alloc, pool_max, servers, &addresses, value)?;
        addresses.push(address)?;
        pools.push(pool)?;
    }
    Ok(VipList {
        addresses: addresses.into_list(),
        pools,
    })
}

// A virtual address after those before it.
#[tactic(auto, using(crate::proofs::Readings::fails_then), unfolding(crate::specs::Walk::vip_in))]
fn vip_in(
    alloc: Global,
    pool_max: u8,
    servers: usize,
    before: &AddressList,
    value: &Value,
) -> Result<((u32, u16), Pool), ParseRefusal>
    requires { servers ≤ 65536 }
    ensures { Answers (λ v. v) result (vip_in pool_max servers before.now (view value.now)) }
{
    match table(value) {
        Ok(table) => vip_table(alloc, pool_max, servers, before, table),
        Err(why) => Err(at_item(alloc, why, Section::Top, "vip", before.len())),
    }
}

// The table of a virtual address.
fn vip_table(
    alloc: Global,
    pool_max: u8,
    servers: usize,
    before: &AddressList,
    table: &Table,
) -> Result<((u32, u16), Pool), ParseRefusal>
    requires { servers ≤ 65536 }
    ensures { Answers (λ v. v) result (vip_table pool_max servers before.now (table_view table.now)) }
{
    let section = Section::Vip(before.len());
    only_known(alloc, section, table, &["addr", "pool"])?;
    let address = placed(alloc, vip_address(before, table), section, "addr")?;
    let pool = pool(alloc, section, pool_max, servers, table)?;
    Ok((address, pool))
}

#[tactic(auto, unfolding(crate::specs::Walk::vip_address))]
fn vip_address(before: &AddressList, table: &Table) -> Result<(u32, u16), Why>
    ensures { result ≡ vip_address before.now (table_view table.now) }
{
    new_address(before, wanted(table, "addr")?)
}
