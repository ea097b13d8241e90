//! A row, read from its text.
use crate::words::{is_edit, number, printed, small, word, words};
use sr_base::{Change, Packet, Pool, Shape, What};
use sr_law::{Line, Pools, Setup};
use std::alloc::Global;
use std::test::Fail;

// The scene's shape: all keys clash in both ways.
fn scene() -> Shape {
    Shape {
        pipes: 1,
        buckets: 1,
        digest_bits: 0,
        versions: 4,
        pool_max: 1,
        full_rows: 4,
        filter_bits: 1,
        ring: 8,
        window_ms: 1,
        idle_ms: 1,
        lives: 1,
    }
}

/// What a row says: a shape, how many virtual addresses there are, the changes, all due at 0, a clock, if any time passed, and the lines of the
/// list.
#[derive(Drop)]
pub(crate) struct Row {
    shape: Shape,
    vips: u8,
    pub(crate) changes: Vec<Change>,
    pub(crate) clock: Option<u64>,
    pub(crate) lines: Vec<Line>,
}

impl Row {
    // A change more.
    fn change(&mut self, what: What) -> Result<(), Fail> {
        self.changes.push(Change { at_ms: 0, what })?;
        Ok(())
    }

    // One line of the row's text that says something of its setup. False where it is a line of the list.
    fn sets(&mut self, alloc: Global, words: &[&str]) -> Result<bool, Fail> {
        match word(words, 0) {
            "pipes" => self.shape.pipes = small(words, 1)?,
            "buckets" => self.shape.buckets = number(words, 1)?,
            "versions" => self.shape.versions = small(words, 1)?,
            "ring" => self.shape.ring = number(words, 1)?,
            "lives" => self.shape.lives = small(words, 1)?,
            "vips" => self.vips = small(words, 1)?,
            "change" => {
                let pool = pool(alloc, number(words, 1)?)?;
                self.change(What::Give { vip: 0, pool })?;
            }
            "outage" => {
                let server = number(words, 1)?;
                self.change(What::TakeDown { server })?;
            }
            "clock" => self.clock = Some(number(words, 1)? as u64),
            _ => return Ok(false),
        }
        Ok(true)
    }

    /// All lines of the row's text.
    pub(crate) fn read(alloc: Global, text: &str) -> Result<Row, Fail> {
        let mut row = Row {
            shape: scene(),
            vips: 1,
            changes: Vec::new(alloc),
            clock: None,
            lines: Vec::new(alloc),
        };
        let mut list = String::new(alloc);
        for line in text.split('\n') {
            if !is_edit(line) && !row.sets(alloc, words(alloc, line)?.as_slice())? {
                list.push_str(line)?;
                list.push_str("\n")?;
            }
        }
        row.lines = printed(alloc, list.as_str())?;
        Ok(row)
    }

    /// Its setup: the first pools and those that the changes give have one server each, and the packets are those that the lines tell of.
    pub(crate) fn setup(&self, alloc: Global) -> Result<Setup, Fail> {
        let mut first = Vec::new(alloc);
        for _vip in 0..self.vips {
            first.push(pool(alloc, 0)?)?;
        }
        let mut packets = Vec::new(alloc);
        for line in &self.lines {
            if let Line::Packet {
                number,
                key,
                kind,
                ..
            } = *line
            {
                packets.push(Packet { number, key, kind })?;
            }
        }
        Ok(Setup {
            shape: self.shape,
            servers: 2,
            pools: Pools::new(alloc, first.as_slice(), self.changes.as_slice())?,
            packets,
        })
    }
}

fn pool(alloc: Global, server: u32) -> Result<Pool, Fail> {
    match Pool::new([server].to_vec(alloc)?) {
        Some(pool) => Ok(pool),
        None => Err(Fail::from("no pool")),
    }
}
