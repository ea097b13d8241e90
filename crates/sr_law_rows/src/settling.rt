//! Judges whether the rows of settled lists, and their edits, are settled.
use crate::judging::list_after;
use crate::row::Row;
use crate::settled_texts::SETTLED;
use crate::words::{is_edit, word, words};
use sr_base::Layout;
use sr_law::{Line, Setup};
use sr_settled::is_settled;
use std::alloc::Global;
use std::test::Fail;

// Whether these lines are settled for a row's changes and clock.
fn settles(alloc: Global, row: &Row, setup: &Setup, lines: &[Line]) -> Result<bool, Fail> {
    let vips = setup.pools.vips();
    if 16 < vips || Layout::new(setup.shape, vips as u8, setup.servers).is_err() {
        return Err(Fail::from("a setup that is out of range"));
    }
    Ok(is_settled(alloc, setup, row.changes.as_slice(), row.clock, lines)?)
}

// The list that this line of a row's text edits is settled, or isn't, as it says. A line that edits nothing is.
fn settles_so(alloc: Global, row: &Row, setup: &Setup, line: &str) -> Result<bool, Fail> {
    if !is_edit(line) {
        return Ok(true);
    }
    let words = words(alloc, line)?;
    let after = list_after(alloc, row.lines.as_slice(), line, words.as_slice())?;
    Ok(settles(alloc, row, setup, after.as_slice())? == (word(words.as_slice(), 2) == "settled"))
}

// The first line of a row's text whose edit isn't as it says, where its own list is settled. Empty where all is.
fn unlike<'a>(alloc: Global, text: &'a str) -> Result<&'a str, Fail> {
    let row = Row::read(alloc, text)?;
    let setup = row.setup(alloc)?;
    if !settles(alloc, &row, &setup, row.lines.as_slice())? {
        return Ok("its own list");
    }
    for line in text.split('\n') {
        if !settles_so(alloc, &row, &setup, line)? {
            return Ok(line);
        }
    }
    Ok("")
}

#[test]
fn rows_are_settled(rt: HostRuntime) -> Result<(), Fail> {
    for text in SETTLED {
        assert_eq!(rt; unlike(rt.alloc(), text)?, "", "{text}");
    }
    Ok(())
}
