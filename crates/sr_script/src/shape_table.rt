ghost use Rattle.std.specs.Prelude.{◌≡◌, ◌≤◌, map, max, option_map, IfOk};
ghost use Rattle.sr_script.specs.Fault.{Answers, at_path};
ghost use Rattle.sr_script.specs.Judge.{most_of};
ghost use Rattle.sr_script.specs.Spelled.{default_shape};
ghost use Rattle.sr_script.specs.Walk.{number_or, shape_number, shape_in, shape_or, shape_of};
ghost use Rattle.toml.specs.View.{view, table_view};

use crate::fault::at_key;
use crate::known::only_known;
use crate::rule::Rule::{Between, FoursUpTo, PowerUpTo};
use crate::rule::{Rule, number};
use crate::section::Section;
use crate::tree::{member, table};
use crate::{ParseRefusal, Why};
use sr_base::{
    MOST_BUCKETS, MOST_DIGEST_BITS, MOST_FILTER_BITS, MOST_FULL_ROWS, MOST_IDLE_MS, MOST_IN_POOL,
    MOST_LIVES, MOST_PIPES, MOST_RING_CELLS, MOST_VERSIONS, MOST_WINDOW_MS, Shape,
};
use std::alloc::Global;
use toml::{Table, Value};

/// The shape of a script that says nothing of it.
const DEFAULT: Shape = Shape {
    pipes: 8,
    buckets: 8_192,
    digest_bits: 16,
    versions: 64,
    pool_max: 16,
    full_rows: 1_024,
    filter_bits: 65_536,
    ring: 65_536,
    window_ms: 100,
    idle_ms: 10_000,
    lives: 3,
};

const KEYS: [&str; 11] = [
    "pipes",
    "buckets",
    "digest_bits",
    "versions",
    "pool_max",
    "full_rows",
    "filter_bits",
    "ring",
    "window_ms",
    "idle_ms",
    "lives",
];

/// The shape of a script.
#[tactic(auto, unfolding(crate::specs::Walk::shape_of))]
pub fn shape(alloc: Global, script: &Table) -> Result<Shape, ParseRefusal>
    ensures { Answers (λ s. s) result (shape_of (table_view script.now)) }
{
    let Some(value) = member(script, "shape") else {
        return Ok(DEFAULT);
    };
    match table(value) {
        Ok(table) => shape_in(alloc, table),
        Err(why) => Err(at_key(alloc, why, Section::Top, "shape")),
    }
}

// The table of a shape.
fn shape_in(alloc: Global, table: &Table) -> Result<Shape, ParseRefusal>
    ensures { Answers (λ s. s) result (shape_in (table_view table.now)) }
{
    only_known(alloc, Section::Shape, table, &KEYS)?;
    let numbers = ShapeNumbers { alloc, table };
    let pipes = numbers.read("pipes", DEFAULT.pipes as u64, Between(1, MOST_PIPES))?;
    let buckets = numbers.read(
        "buckets",
        DEFAULT.buckets as u64,
        PowerUpTo(MOST_BUCKETS as u64),
    )?;
    let digest_bits = numbers.read(
        "digest_bits",
        DEFAULT.digest_bits as u64,
        Between(0, MOST_DIGEST_BITS),
    )?;
    let versions = numbers.read(
        "versions",
        DEFAULT.versions as u64,
        Between(2, MOST_VERSIONS),
    )?;
    let pool_max = numbers.read(
        "pool_max",
        DEFAULT.pool_max as u64,
        Between(1, MOST_IN_POOL),
    )?;
    let full_rows = numbers.read(
        "full_rows",
        DEFAULT.full_rows as u64,
        FoursUpTo(MOST_FULL_ROWS),
    )?;
    let filter_bits = numbers.read(
        "filter_bits",
        DEFAULT.filter_bits as u64,
        PowerUpTo(MOST_FILTER_BITS as u64),
    )?;
    let ring = numbers.read("ring", DEFAULT.ring as u64, Between(1, MOST_RING_CELLS))?;
    let window_ms = numbers.read("window_ms", DEFAULT.window_ms, Between(1, MOST_WINDOW_MS))?;
    let idle_ms = numbers.read("idle_ms", DEFAULT.idle_ms, Between(1, MOST_IDLE_MS))?;
    let lives = numbers.read("lives", DEFAULT.lives as u64, Between(1, MOST_LIVES))?;
    Ok(Shape {
        pipes: pipes as u8,
        buckets: buckets as u32,
        digest_bits: digest_bits as u8,
        versions: versions as u8,
        pool_max: pool_max as u8,
        full_rows: full_rows as u32,
        filter_bits: filter_bits as u32,
        ring: ring as u32,
        window_ms,
        idle_ms,
        lives: lives as u8,
    })
}

// The table of a shape, whose numbers are read one by one.
#[derive(Clone, Copy)]
struct ShapeNumbers<'a> {
    alloc: Global,
    table: &'a Table,
}

impl<'a> ShapeNumbers<'a> {
    // The number of a rule at a key, or the default where the key is missing.
    #[tactic(auto, unfolding(crate::specs::Walk::shape_number))]
    fn read(&self, key: &str, default: u64, rule: Rule) -> Result<u64, ParseRefusal>
        ensures value { Answers (λ n. n) result (shape_number key.now default rule (table_view self.now.table.now)) }
        ensures bound { IfOk result (λ n. n ≤ max default (most_of rule)) }
    {
        match number_or(member(self.table, key), default, rule) {
            Ok(n) => Ok(n),
            Err(why) => Err(at_key(self.alloc, why, Section::Shape, key)),
        }
    }
}

fn number_or(value: Option<&Value>, default: u64, rule: Rule) -> Result<u64, Why>
    ensures value { result ≡ number_or default rule (option_map (λ v. view v.now) value.entry) }
    ensures bound { IfOk result (λ n. n ≤ max default (most_of rule)) }
{
    match value {
        Some(value) => number(value, rule, Why::OutOfRange),
        None => Ok(default),
    }
}
