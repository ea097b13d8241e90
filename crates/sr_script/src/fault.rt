ghost use Rattle.std.specs.Prelude.{◌≡◌, IfOk, string_bytes};
ghost use Rattle.sr_script.specs.Path.{prefix, key_path, item_path};
ghost use Rattle.sr_script.specs.Fault.{Refuses, Answers, at_path};

use crate::section::Section;
use crate::{ParseRefusal, ScriptRefusal, Why};
use std::alloc::{AllocError, Global};

/// The refusal for a fault at a key of a table.
pub fn at_key(alloc: Global, why: Why, section: Section, key: &str) -> ParseRefusal
    ensures { Refuses result (record { why = why; path = key_path section key.now }) }
{
    match key_path(alloc, section, key) {
        Ok(path) => ParseRefusal::Script(ScriptRefusal { why, path }),
        Err(_) => ParseRefusal::Memory,
    }
}

/// The refusal for a fault at an element of the array at a key of a table.
pub fn at_item(alloc: Global, why: Why, section: Section, key: &str, item: usize) -> ParseRefusal
    ensures { Refuses result (record { why = why; path = item_path section key.now item }) }
{
    match item_path(alloc, section, key, item) {
        Ok(path) => ParseRefusal::Script(ScriptRefusal { why, path }),
        Err(_) => ParseRefusal::Memory,
    }
}

/// What stands at a key of a table, where it is no fault.
pub fn placed<T: Drop>(
    alloc: Global,
    judged: Result<T, Why>,
    section: Section,
    key: &str,
) -> Result<T, ParseRefusal>
    ensures { Answers (λ x. x) result (at_path (key_path section key.now) judged) }
{
    match judged {
        Ok(value) => Ok(value),
        Err(why) => Err(at_key(alloc, why, section, key)),
    }
}

fn prefix(alloc: Global, section: Section) -> Result<String, AllocError>
    ensures { IfOk result (λ s. string_bytes s ≡ prefix section) }
{
    match section {
        Section::Top => Ok(String::new(alloc)),
        Section::Shape => String::from_str(alloc, "shape."),
        Section::Vip(i) => format!(in alloc; "vip[{i}]."),
        Section::Change(i) => format!(in alloc; "change[{i}]."),
    }
}

fn key_path(alloc: Global, section: Section, key: &str) -> Result<String, AllocError>
    ensures { IfOk result (λ s. string_bytes s ≡ key_path section key.now) }
{
    let mut path = prefix(alloc, section)?;
    path.push_str(key)?;
    Ok(path)
}

fn item_path(alloc: Global, section: Section, key: &str, item: usize) -> Result<String, AllocError>
    ensures { IfOk result (λ s. string_bytes s ≡ item_path section key.now item) }
{
    let mut path = key_path(alloc, section, key)?;
    let position = format!(in alloc; "[{item}]")?;
    path.push_str(&position)?;
    Ok(path)
}
