//! Judges the rows, and each of their edits, by both bodies of the auditor.
use crate::row::Row;
use crate::row_texts::ROWS;
use crate::words::{is_edit, number, printed, word, words};
use sr_audit::check;
use sr_base::Layout;
use sr_law::{CheckRefusal, Clause, Line, Setup, check_plain};
use std::alloc::Global;
use std::test::Fail;

// Where a list is broken first, and how; None where it is lawful. Want of memory is Text at 0.
fn breach(answer: Result<(), CheckRefusal>) -> Option<(usize, Clause)> {
    match answer {
        Ok(()) => None,
        Err(CheckRefusal::Breach { line, clause }) => Some((line, clause)),
        Err(CheckRefusal::Memory) => Some((0, Clause::Text)),
    }
}

/// What both bodies answer: the line and the clause that are broken first. A setup that they can't take is Text at 0, and so are two answers.
pub(crate) fn judged(alloc: Global, setup: &Setup, lines: &[Line]) -> Option<(usize, Clause)> {
    let vips = setup.pools.vips();
    if 16 < vips || Layout::new(setup.shape, vips as u8, setup.servers).is_err() {
        return Some((0, Clause::Text));
    }
    let plain = breach(check_plain(setup, lines));
    if breach(check(alloc, setup, lines)) == plain {
        plain
    } else {
        Some((0, Clause::Text))
    }
}

/// The lines with these in place of the one at this position, from 1.
pub(crate) fn edited(
    alloc: Global,
    lines: &[Line],
    number: u32,
    new: &[Line],
) -> Result<Vec<Line>, Fail> {
    let mut after = Vec::new(alloc);
    let mut position = 0u32;
    for old in lines {
        position = position.saturating_add(1);
        if position == number {
            after.extend_from_slice(new)?;
        } else {
            after.push(*old)?;
        }
    }
    Ok(after)
}

// What is behind the first four words of a line.
fn behind_four(line: &str) -> &str {
    let mut rest = line;
    for _word in 0..4 {
        rest = match rest.split_once(' ') {
            Some((_, behind)) => behind,
            None => "",
        };
    }
    rest
}

// The line that an edit puts in, or none.
fn put_in(alloc: Global, edit: &str) -> Result<Vec<Line>, Fail> {
    if edit.starts_with("drop ") {
        return Ok(Vec::new(alloc));
    }
    let mut line = String::from_str(alloc, behind_four(edit))?;
    line.push_str("\n")?;
    printed(alloc, line.as_str())
}

// The clause that an edit names; None for `ok`.
fn clause(words: &[&str], i: usize) -> Option<Clause> {
    match word(words, i) {
        "order" => Some(Clause::Order),
        "server" => Some(Clause::Server),
        "same" => Some(Clause::Same),
        "newer" => Some(Clause::Newer),
        "number" => Some(Clause::Number),
        "cause" => Some(Clause::Cause),
        "retire" => Some(Clause::Retire),
        "final" => Some(Clause::Final),
        _ => None,
    }
}

// What an edit says that the auditor answers.
fn wanted(words: &[&str]) -> Result<Option<(usize, Clause)>, Fail> {
    match clause(words, 2) {
        Some(clause) => Ok(Some((number(words, 3)? as usize, clause))),
        None => Ok(None),
    }
}

/// The list after an edit.
pub(crate) fn list_after(
    alloc: Global,
    lines: &[Line],
    edit: &str,
    words: &[&str],
) -> Result<Vec<Line>, Fail> {
    if word(words, 1) == "all" {
        Ok(Vec::new(alloc))
    } else {
        let new = put_in(alloc, edit)?;
        edited(alloc, lines, number(words, 1)?, new.as_slice())
    }
}

// Whether the list that this line of a row's text edits is judged as it says. A line that edits nothing is.
fn is_judged_so(alloc: Global, row: &Row, setup: &Setup, line: &str) -> Result<bool, Fail> {
    if !is_edit(line) {
        return Ok(true);
    }
    let words = words(alloc, line)?;
    let after = list_after(alloc, row.lines.as_slice(), line, words.as_slice())?;
    Ok(judged(alloc, setup, after.as_slice()) == wanted(words.as_slice())?)
}

// The first line of a row's text whose edit isn't judged as it says. Empty where each is.
fn misjudged_edit<'a>(
    alloc: Global,
    row: &Row,
    setup: &Setup,
    text: &'a str,
) -> Result<&'a str, Fail> {
    for line in text.split('\n') {
        if !is_judged_so(alloc, row, setup, line)? {
            return Ok(line);
        }
    }
    Ok("")
}

// What of a row isn't judged as it says: its own list, or the first such edit. Empty where all is.
fn misjudged<'a>(alloc: Global, text: &'a str) -> Result<&'a str, Fail> {
    let row = Row::read(alloc, text)?;
    let setup = row.setup(alloc)?;
    match judged(alloc, &setup, row.lines.as_slice()) {
        None => misjudged_edit(alloc, &row, &setup, text),
        Some(_) => Ok("its own list"),
    }
}

#[test]
fn rows_are_judged(rt: HostRuntime) -> Result<(), Fail> {
    for text in ROWS {
        assert_eq!(rt; misjudged(rt.alloc(), text)?, "", "{text}");
    }
    Ok(())
}
