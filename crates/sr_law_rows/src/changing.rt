//! Lists that differ from a lawful one in one place: both bodies of the auditor answer alike.
use crate::judging::{edited, judged};
use crate::row::Row;
use crate::row_texts::ROWS;
use crate::words::{printed_if, words};
use sr_law::{Clause, Line, Setup};
use std::alloc::Global;
use std::test::Fail;

// The digit after this one, and 0 after 9; any other character stays.
fn next_digit(c: char) -> char {
    match c {
        '0' => '1',
        '1' => '2',
        '2' => '3',
        '3' => '4',
        '4' => '5',
        '5' => '6',
        '6' => '7',
        '7' => '8',
        '8' => '9',
        '9' => '0',
        _ => c,
    }
}

// A word with another last digit; one that doesn't end in a digit stays.
fn with_next_digit(alloc: Global, word: &str) -> Result<String, Fail> {
    let size = word.chars().count();
    let mut changed = String::new(alloc);
    let mut position = 0usize;
    for c in word.chars() {
        position = position.saturating_add(1);
        changed.push(if position == size { next_digit(c) } else { c })?;
    }
    Ok(changed)
}

// The word that is put in the place of this one. It stays where it is neither a kind or verdict of a packet nor ends in a digit.
fn other_word(alloc: Global, word: &str) -> Result<String, Fail> {
    let other = match word {
        "open" => "data",
        "data" => "end",
        "end" => "open",
        "clash" => "hold",
        "hold" => "transit",
        "transit" => "clash",
        "to" => "down",
        "down" => "to",
        "full" => "noplace",
        "noplace" => "full",
        _ => return with_next_digit(alloc, word),
    };
    Ok(String::from_str(alloc, other)?)
}

// The line of these words, with this word in the place of the one at this position, from 0.
fn with_word(alloc: Global, words: &[&str], position: usize, other: &str) -> Result<String, Fail> {
    let mut line = String::new(alloc);
    for i in 0..words.len() {
        line.push_str(if i == position { other } else { words[i] })?;
        line.push_str(if i + 1 == words.len() { "\n" } else { " " })?;
    }
    Ok(line)
}

// The bodies answer alike of a row's list with these lines in place of the one of this number.
fn compare(alloc: Global, row: &Row, setup: &Setup, number: u32, new: &[Line]) -> Result<(), Fail> {
    let list = edited(alloc, row.lines.as_slice(), number, new)?;
    if judged(alloc, setup, list.as_slice()) == Some((0, Clause::Text)) {
        return Err(Fail::from("two answers"));
    }
    Ok(())
}

// How many lists were compared that have another word in this line of a row's list, of every second word; one that makes no line of a log is left
// out.
fn compared_words(
    alloc: Global,
    row: &Row,
    setup: &Setup,
    number: u32,
    line: &str,
) -> Result<u32, Fail> {
    let words = words(alloc, line)?;
    let mut count = 0u32;
    for i in 0..words.len() {
        let other = other_word(alloc, words[i])?;
        let changed = with_word(alloc, words.as_slice(), i, other.as_str())?;
        if i % 2 == number as usize % 2 && other.as_str() != words[i] {
            if let Some(new) = printed_if(alloc, changed.as_str())? {
                compare(alloc, row, setup, number, new.as_slice())?;
                count = count.saturating_add(1);
            }
        }
    }
    Ok(count)
}

// How many lists were compared that differ from a row's in one line: it has another word, or isn't there, or is there twice.
fn compared(alloc: Global, text: &str) -> Result<u32, Fail> {
    let row = Row::read(alloc, text)?;
    let setup = row.setup(alloc)?;
    let mut count = 0u32;
    let mut number = 0u32;
    for line in text.split('\n') {
        let mut printed_line = String::from_str(alloc, line)?;
        printed_line.push_str("\n")?;
        if let Some(own) = printed_if(alloc, printed_line.as_str())? {
            number = number.saturating_add(1);
            compare(alloc, &row, &setup, number, &[])?;
            let mut twice = own.clone()?;
            twice.extend_from_slice(own.as_slice())?;
            compare(alloc, &row, &setup, number, twice.as_slice())?;
            count = count.saturating_add(compared_words(alloc, &row, &setup, number, line)?);
            count = count.saturating_add(2);
        }
    }
    Ok(count)
}

#[test]
fn bodies_answer_alike(rt: HostRuntime) -> Result<(), Fail> {
    let mut count = 0u32;
    for text in ROWS {
        count = count.saturating_add(compared(rt.alloc(), text)?);
    }
    assert!(rt; 500 <= count);
    Ok(())
}
