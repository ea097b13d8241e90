ghost use Rattle.std.specs.Prelude.{◌≡◌, ◌<◌, ◌≤◌, map, length, vec_len, IfOk, []};
ghost use Rattle.std.specs.List.{list_any};
ghost use Rattle.sr_script.specs.Fault.{seen, Answers, each_after};
ghost use Rattle.sr_script.specs.Spelled.{last_ms, takes_down};
ghost use Rattle.sr_script.specs.Walk.{gives, change_keys, still_up, down_in, given_vip, take_down_in, give_in, what_in, due_in, change_table, change_in, elements_or_none, change_values, changes_of};
ghost use Rattle.toml.specs.View.{view, table_view};

use crate::count::at_most;
use crate::fault::{at_item, at_key, placed};
use crate::known::only_known;
use crate::pool_array::pool;
use crate::rule::{Rule, number};
use crate::section::Section;
use crate::tree::{elements, has, member, table, wanted};
use crate::{ParseRefusal, Why};
use sr_base::{Change, What};
use std::alloc::Global;
use toml::{Table, Value};

/// The most changes of a script.
const MOST_CHANGES: usize = 4_096;

/// The greatest time of a change, in milliseconds: the whole numbers up to it are those that an `f64` holds exactly, too.
const LAST_MS: u64 = (1 << 53) - 1;

/// The changes of a script.
#[tactic(auto, using(crate::proofs::Readings::fails_then), unfolding(crate::specs::Walk::changes_of))]
pub fn changes(
    alloc: Global,
    pool_max: u8,
    servers: usize,
    vips: usize,
    script: &Table,
) -> Result<Vec<Change>, ParseRefusal>
    requires servers { servers ≤ 65536 }
    requires vips { vips ≤ 16 }
    ensures { Answers (λ v. v.items) result (changes_of pool_max servers vips (table_view script.now)) }
{
    match change_values(script) {
        Ok(values) => changes_from(alloc, pool_max, servers, vips, values),
        Err(why) => Err(at_key(alloc, why, Section::Top, "change")),
    }
}

// The array of changes.
#[tactic(auto, unfolding(crate::specs::Walk::change_values))]
fn change_values(script: &Table) -> Result<&[Value], Why>
    ensures { seen (λ vs. map view vs.now) result ≡ change_values (table_view script.now) }
{
    match member(script, "change") {
        Some(value) => at_most(elements(value)?, MOST_CHANGES, Why::TooManyChanges),
        None => Ok(&[]),
    }
}

// The changes of the array.
fn changes_from(
    alloc: Global,
    pool_max: u8,
    servers: usize,
    vips: usize,
    values: &[Value],
) -> Result<Vec<Change>, ParseRefusal>
    requires servers { servers ≤ 65536 }
    requires vips { vips ≤ 16 }
    ensures { Answers (λ v. v.items) result (each_after (change_in pool_max servers vips) [] (map view values.now)) }
{
    let mut changes = Vec::new(alloc);
    for value in values {
        let change = change_in(alloc, pool_max, servers, vips, &changes, value)?;
        changes.push(change)?;
    }
    Ok(changes)
}

// A change after those before it.
#[tactic(auto, using(crate::proofs::Readings::fails_then), unfolding(crate::specs::Walk::change_in))]
fn change_in(
    alloc: Global,
    pool_max: u8,
    servers: usize,
    vips: usize,
    before: &[Change],
    value: &Value,
) -> Result<Change, ParseRefusal>
    requires servers { servers ≤ 65536 }
    requires vips { vips ≤ 16 }
    ensures { Answers (λ c. c) result (change_in pool_max servers vips before.now (view value.now)) }
{
    match table(value) {
        Ok(table) => change_table(alloc, pool_max, servers, vips, before, table),
        Err(why) => Err(at_item(alloc, why, Section::Top, "change", before.len())),
    }
}

// The table of a change.
fn change_table(
    alloc: Global,
    pool_max: u8,
    servers: usize,
    vips: usize,
    before: &[Change],
    table: &Table,
) -> Result<Change, ParseRefusal>
    requires servers { servers ≤ 65536 }
    requires vips { vips ≤ 16 }
    ensures { Answers (λ c. c) result (change_table pool_max servers vips before.now (table_view table.now)) }
{
    let section = Section::Change(before.len());
    only_known(alloc, section, table, change_keys(gives(table)))?;
    let at_ms = placed(alloc, due_in(last_ms(before), table), section, "at_ms")?;
    let what = what_in(alloc, section, pool_max, servers, vips, before, table)?;
    Ok(Change { at_ms, what })
}

// Whether a change gives a pool.
fn gives(table: &Table) -> bool
    ensures { result ≡ gives (table_view table.now) }
{
    has(table, "vip") || has(table, "pool")
}

// The keys of a change that gives a pool, or doesn't.
fn change_keys(gives: bool) -> &'static [&'static str]
    ensures { map (λ k. k.now) result.now ≡ change_keys gives }
{
    if gives {
        &["at_ms", "vip", "pool"]
    } else {
        &["at_ms", "vip", "pool", "down"]
    }
}

// When the last change is due, or 0.
fn last_ms(before: &[Change]) -> u64
    ensures { result ≡ last_ms before.now }
{
    match before.last() {
        Some(change) => change.at_ms,
        None => 0,
    }
}

// When a change is due.
#[tactic(auto, unfolding(crate::specs::Walk::due_in))]
fn due_in(last: u64, table: &Table) -> Result<u64, Why>
    ensures { result ≡ due_in last (table_view table.now) }
{
    number(
        wanted(table, "at_ms")?,
        Rule::Between(last, LAST_MS),
        Why::OutOfRange,
    )
}

// What a change does.
#[tactic(auto, unfolding(crate::specs::Walk::what_in))]
fn what_in(
    alloc: Global,
    section: Section,
    pool_max: u8,
    servers: usize,
    vips: usize,
    before: &[Change],
    table: &Table,
) -> Result<What, ParseRefusal>
    requires servers { servers ≤ 65536 }
    requires vips { vips ≤ 16 }
    ensures { Answers (λ w. w) result (what_in section pool_max servers vips before.now (table_view table.now)) }
{
    if has(table, "down") {
        take_down_in(alloc, section, servers, before, table)
    } else {
        give_in(alloc, section, pool_max, servers, vips, table)
    }
}

// A change that takes a server down.
fn take_down_in(
    alloc: Global,
    section: Section,
    servers: usize,
    before: &[Change],
    table: &Table,
) -> Result<What, ParseRefusal>
    requires { servers ≤ 65536 }
    ensures { Answers (λ w. w) result (take_down_in section servers before.now (table_view table.now)) }
{
    let server = placed(alloc, down_in(servers, before, table), section, "down")?;
    Ok(What::TakeDown { server })
}

// A server that no change before takes down.
#[tactic(auto, unfolding(crate::specs::Walk::down_in))]
fn down_in(servers: usize, before: &[Change], table: &Table) -> Result<u32, Why>
    requires { servers ≤ 65536 }
    ensures { result ≡ down_in servers before.now (table_view table.now) }
{
    let server = number(
        wanted(table, "down")?,
        Rule::Below(servers as u64),
        Why::NoSuchServer,
    )? as u32;
    if is_down(before, server) {
        Err(Why::Repeated)
    } else {
        Ok(server)
    }
}

// Whether one of some changes takes a server down.
fn is_down(changes: &[Change], server: u32) -> bool
    ensures { result ≡ list_any (λ c. takes_down server c.what) changes.now }
{
    for change in changes {
        if takes_down(&change.what, server) {
            return true;
        }
    }
    false
}

fn takes_down(what: &What, server: u32) -> bool
    ensures { result ≡ takes_down server what.now }
{
    match what {
        What::Give { .. } => false,
        What::TakeDown { server: other } => *other == server,
    }
}

// A change that gives a pool.
fn give_in(
    alloc: Global,
    section: Section,
    pool_max: u8,
    servers: usize,
    vips: usize,
    table: &Table,
) -> Result<What, ParseRefusal>
    requires servers { servers ≤ 65536 }
    requires vips { vips ≤ 16 }
    ensures { Answers (λ w. w) result (give_in section pool_max servers vips (table_view table.now)) }
{
    let vip = placed(alloc, given_vip(vips, table), section, "vip")?;
    let pool = pool(alloc, section, pool_max, servers, table)?;
    Ok(What::Give { vip, pool })
}

// The virtual address whose pool a change gives.
#[tactic(auto, unfolding(crate::specs::Walk::given_vip))]
fn given_vip(vips: usize, table: &Table) -> Result<u8, Why>
    requires { vips ≤ 16 }
    ensures { result ≡ given_vip vips (table_view table.now) }
{
    let vip = number(
        wanted(table, "vip")?,
        Rule::Below(vips as u64),
        Why::NoSuchVip,
    )?;
    Ok(vip as u8)
}
