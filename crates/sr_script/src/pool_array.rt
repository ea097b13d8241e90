ghost use Rattle.std.specs.Prelude.{◌≡◌, ◌<◌, ◌≤◌, ◌^◌, [], map, length, vec_len, IfOk};
ghost use Rattle.sr_script.specs.Fault.{seen, Answers, each_after};
ghost use Rattle.sr_script.specs.Walk.{new_server, member_in, pool_values, pool_in};
ghost use Rattle.toml.specs.View.{view, table_view};

use crate::count::{at_most, some};
use crate::fault::{at_item, at_key};
use crate::rule::{Rule, number};
use crate::section::Section;
use crate::tree::{elements, wanted};
use crate::{ParseRefusal, Why};
use sr_base::Pool;
use std::alloc::Global;
use toml::{Table, Value};

/// The pool of a table, whose members are positions among so many servers.
#[tactic(auto, using(crate::proofs::Readings::fails_then), unfolding(crate::specs::Walk::pool_in))]
pub fn pool(
    alloc: Global,
    section: Section,
    pool_max: u8,
    servers: usize,
    table: &Table,
) -> Result<Pool, ParseRefusal>
    requires { servers ≤ 65536 }
    ensures { Answers (λ p. p) result (pool_in section pool_max servers (table_view table.now)) }
{
    match pool_values(pool_max, table) {
        Ok(values) => pool_from(alloc, section, servers, values),
        Err(why) => Err(at_key(alloc, why, section, "pool")),
    }
}

// The array of a pool.
#[tactic(auto, unfolding(crate::specs::Walk::pool_values))]
fn pool_values(pool_max: u8, table: &Table) -> Result<&[Value], Why>
    ensures value { seen (λ vs. map view vs.now) result ≡ pool_values pool_max (table_view table.now) }
    ensures most { IfOk result (λ vs. length vs.now ≤ 255) }
    ensures least { IfOk result (λ vs. 1 ≤ length vs.now) }
{
    let value = wanted(table, "pool")?;
    let values = some(elements(value)?, Why::EmptyPool)?;
    at_most(values, pool_max as usize, Why::PoolTooLarge)
}

// The members of a pool.
fn pool_from(
    alloc: Global,
    section: Section,
    servers: usize,
    values: &[Value],
) -> Result<Pool, ParseRefusal>
    requires servers { servers ≤ 65536 }
    requires most { length values.now ≤ 255 }
    requires least { 1 ≤ length values.now }
    ensures { Answers (λ p. p) result (each_after (member_in section servers) [] (map view values.now)) }
{
    let mut members = Vec::new(alloc);
    for value in values {
        let server = member_in(alloc, section, servers, &members, value)?;
        members.push(server)?;
    }
    match Pool::new(members) {
        Some(pool) => Ok(pool),
        None => unreachable!(),
    }
}

// A member after those before it.
fn member_in(
    alloc: Global,
    section: Section,
    servers: usize,
    before: &[u32],
    value: &Value,
) -> Result<u32, ParseRefusal>
    requires { servers ≤ 65536 }
    ensures { Answers (λ n. n) result (member_in section servers before.now (view value.now)) }
{
    match new_server(servers, before, value) {
        Ok(server) => Ok(server),
        Err(why) => Err(at_item(alloc, why, section, "pool", before.len())),
    }
}

// The server of a number, where it is none of those before it.
#[tactic(auto, unfolding(crate::specs::Walk::new_server))]
fn new_server(servers: usize, before: &[u32], value: &Value) -> Result<u32, Why>
    requires { servers ≤ 65536 }
    ensures { result ≡ new_server servers before.now (view value.now) }
{
    let server = number(value, Rule::Below(servers as u64), Why::NoSuchServer)? as u32;
    if before.contains(&server) {
        Err(Why::Repeated)
    } else {
        Ok(server)
    }
}
