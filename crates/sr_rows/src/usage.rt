//! Words that are no command.
use crate::play::{Row, row_of, tells};
use std::alloc::{AllocError, Global};
use std::test::Fail;
use std::thread::Threads;

// The words of each row are joined by `|`. The first row has none.
const ROWS: &str = "
one
one|192.0.2.1:80
one|192.0.2.1:80|10.1.0.1:80,10.1.0.1:80
one|192.0.2.1:80|10.1.0.1:80,
one|192.0.2.1:80|
one|192.0.2.01:80|10.1.0.1:80
one|192.0.2.1:0|10.1.0.1:80
one|192.0.2.1:80|10.1.0.1:80|more
One|192.0.2.1:80|10.1.0.1:80
audit
audit|-x
audit|x|y
audit|--|x
replay
replay|-x
replay|scene|1
make|1|0
make|+1|5
make|1|4194305
make|18446744073709551616|1
demo
demo|x
demo|-1
demo|1|2
demo|18446744073709551616
steps
steps|scene
steps|scene|-1
steps|scene|+1
steps|scene|18446744073709551616
steps|scene|1|2
steps|-x|1";

const USAGE: &str =
    "exit 1 silkroad: usage: one VIP SERVERS, replay SCRIPT, audit SCRIPT, make N PACKETS, demo N, steps SCRIPT SEED\n";

// The words of the first row that are taken for a command.
fn taken_for_a_command<R: Threads + Sync>(
    rt: &R,
    alloc: Global,
) -> Result<Option<&'static str>, AllocError> {
    for words in ROWS.split('\n') {
        let row = Row {
            words,
            ..row_of(&[], 1)
        };
        if !tells(rt, alloc, row, USAGE)? {
            return Ok(Some(words));
        }
    }
    Ok(None)
}

#[test]
fn no_command(rt: HostRuntime) -> Result<(), Fail> {
    assert_eq!(rt; taken_for_a_command(&rt, rt.alloc())?, None);
    Ok(())
}
