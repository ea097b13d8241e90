ghost use Rattle.std.specs.Prelude.{◌≡◌, map, length, option_map};
ghost use Rattle.sr_script.specs.Fault.{seen};
ghost use Rattle.sr_script.specs.Judge.{has, wanted, text, whole, elements, table};
ghost use Rattle.toml.specs.Data.{get_member};
ghost use Rattle.toml.specs.View.{view, table_view};

use crate::Why;
use toml::{Table, Value};

/// The value at a key.
pub fn member<'a>(table: &'a Table, key: &str) -> Option<&'a Value>
    ensures { option_map (λ v. view v.now) result ≡ get_member key.now (table_view table.now) }
{
    table.get(key)
}

/// Whether a table has a key.
pub fn has(table: &Table, key: &str) -> bool
    ensures { result ≡ has key.now (table_view table.now) }
{
    member(table, key).is_some()
}

/// The value at a key that has to be there.
pub fn wanted<'a>(table: &'a Table, key: &str) -> Result<&'a Value, Why>
    ensures { seen (λ v. view v.now) result ≡ wanted key.now (table_view table.now) }
{
    match member(table, key) {
        Some(value) => Ok(value),
        None => Err(Why::Missing),
    }
}

/// The text that a value is.
pub fn text(value: &Value) -> Result<&str, Why>
    ensures { seen (λ s. s.now) result ≡ text (view value.now) }
{
    match value.as_str() {
        Some(text) => Ok(text),
        None => Err(Why::WrongType),
    }
}

/// The whole number that a value is.
pub fn whole(value: &Value) -> Result<i64, Why>
    ensures { result ≡ whole (view value.now) }
{
    match value.as_integer() {
        Some(n) => Ok(n),
        None => Err(Why::WrongType),
    }
}

/// The elements of the array that a value is.
#[tactic(auto, using(crate::proofs::Trees::list_of_items))]
pub fn elements(value: &Value) -> Result<&[Value], Why>
    ensures { seen (λ vs. map view vs.now) result ≡ elements (view value.now) }
{
    match value.as_array() {
        Some(array) => Ok(array.as_slice()),
        None => Err(Why::WrongType),
    }
}

/// The table that a value is.
pub fn table(value: &Value) -> Result<&Table, Why>
    ensures { seen (λ t. table_view t.now) result ≡ table (view value.now) }
{
    match value.as_table() {
        Some(table) => Ok(table),
        None => Err(Why::WrongType),
    }
}
