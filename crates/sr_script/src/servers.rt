ghost use Rattle.std.specs.Prelude.{◌≡◌, ◌≤◌, map, length, vec_len, IfOk, []};
ghost use Rattle.sr_script.specs.Fault.{seen, Answers, each_after};
ghost use Rattle.sr_script.specs.Walk.{new_address, server_in, server_values, servers_of};
ghost use Rattle.toml.specs.View.{view, table_view};

use crate::address_list::AddressList;
use crate::address_text::address;
use crate::count::{at_most, some};
use crate::fault::{at_item, at_key};
use crate::section::Section;
use crate::tree::{elements, text, wanted};
use crate::{ParseRefusal, Why};
use sr_base::MOST_SERVERS;
use std::alloc::Global;
use toml::{Table, Value};

/// The servers of a script.
#[tactic(auto, using(crate::proofs::Readings::fails_then), unfolding(crate::specs::Walk::servers_of))]
pub fn servers(alloc: Global, script: &Table) -> Result<Vec<(u32, u16)>, ParseRefusal>
    ensures value { Answers (λ v. v.items) result (servers_of (table_view script.now)) }
    ensures bound { IfOk result (λ v. vec_len v ≤ 65536) }
{
    match server_values(script) {
        Ok(values) => servers_from(alloc, values),
        Err(why) => Err(at_key(alloc, why, Section::Top, "servers")),
    }
}

// The array of servers.
#[tactic(auto, unfolding(crate::specs::Walk::server_values))]
fn server_values(script: &Table) -> Result<&[Value], Why>
    ensures value { seen (λ vs. map view vs.now) result ≡ server_values (table_view script.now) }
    ensures bound { IfOk result (λ vs. length vs.now ≤ 65536) }
{
    let value = wanted(script, "servers")?;
    let values = some(elements(value)?, Why::OutOfRange)?;
    at_most(values, MOST_SERVERS as usize, Why::OutOfRange)
}

// The servers of the array.
fn servers_from(alloc: Global, values: &[Value]) -> Result<Vec<(u32, u16)>, ParseRefusal>
    ensures value { Answers (λ v. v.items) result (each_after server_in [] (map view values.now)) }
    ensures count { IfOk result (λ v. vec_len v ≡ length values.now) }
{
    let mut servers = AddressList::new(alloc);
    for value in values {
        let server = server_in(alloc, &servers, value)?;
        servers.push(server)?;
    }
    Ok(servers.into_list())
}

// A server after those before it.
fn server_in(alloc: Global, before: &AddressList, value: &Value) -> Result<(u32, u16), ParseRefusal>
    ensures { Answers (λ a. a) result (server_in before.now (view value.now)) }
{
    match new_address(before, value) {
        Ok(server) => Ok(server),
        Err(why) => Err(at_item(alloc, why, Section::Top, "servers", before.len())),
    }
}

/// The address of a text, where it is none of those before it.
#[tactic(auto, unfolding(crate::specs::Walk::new_address))]
pub fn new_address(before: &AddressList, value: &Value) -> Result<(u32, u16), Why>
    ensures { result ≡ new_address before.now (view value.now) }
{
    let Some(address) = address(text(value)?) else {
        return Err(Why::OutOfRange);
    };
    if before.contains(&address) {
        Err(Why::Repeated)
    } else {
        Ok(address)
    }
}
