//! The words of a line of a row's text, and printed lines.

use sr_io::SureSource;
use sr_law::Line;
use sr_text::read_lines;
use std::alloc::Global;
use std::test::Fail;

/// The words of a line.
pub(crate) fn words<'a>(alloc: Global, line: &'a str) -> Result<Vec<&'a str>, Fail> {
    Ok(line.split_whitespace().collect::<Vec<&'a str>>(alloc)?)
}

/// A word of them; empty where there are fewer.
pub(crate) fn word<'a>(words: &[&'a str], i: usize) -> &'a str {
    match words.get(i) {
        Some(word) => *word,
        None => "",
    }
}

/// A word that is a number.
pub(crate) fn number(words: &[&str], i: usize) -> Result<u32, Fail> {
    match word(words, i).parse::<u32>() {
        Ok(n) => Ok(n),
        Err(_) => Err(Fail::from("a word that is no number")),
    }
}

/// A word that is a number below 256.
pub(crate) fn small(words: &[&str], i: usize) -> Result<u8, Fail> {
    match word(words, i).parse::<u8>() {
        Ok(n) => Ok(n),
        Err(_) => Err(Fail::from("a word that is no number below 256")),
    }
}

/// Whether the line edits a list.
pub(crate) fn is_edit(line: &str) -> bool {
    line.starts_with("edit ") || line.starts_with("drop ")
}

/// The lines of a log without its head; None where one is no line of a log.
pub(crate) fn printed_if(alloc: Global, lines: &str) -> Result<Option<Vec<Line>>, Fail> {
    let mut text = String::from_str(alloc, "silkroad 1\n")?;
    text.push_str(lines)?;
    let mut source = SureSource::new(text.into_bytes(), 4096);
    match read_lines(alloc, &mut source) {
        Ok(log) => Ok(Some(log.lines)),
        Err(_) => Ok(None),
    }
}

/// The lines of a log without its head, of which each is one.
pub(crate) fn printed(alloc: Global, lines: &str) -> Result<Vec<Line>, Fail> {
    match printed_if(alloc, lines)? {
        Some(lines) => Ok(lines),
        None => Err(Fail::from("a line that is none of a log")),
    }
}
