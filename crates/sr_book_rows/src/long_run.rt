//! A long run of calls that looks random, in the book and in a plain list.

ghost use Rattle.std.specs.Prelude.{◌<◌};

use crate::plain::Plain;
use crate::small::{Book, small_layout};
use sr_base::{Key, Layout, Place};
use std::alloc::{AllocError, Global};
use std::test::Fail;

// A number that looks random, below `most`, and the next state.
fn draw(state: &mut u64, most: u64) -> u64
    requires { 0 < most }
    ensures { result < most }
{
    *state = state
        .wrapping_mul(6364136223846793005)
        .wrapping_add(1442695040888963407);
    (*state >> 33) % most
}

// One of 48 keys.
fn draw_key(state: &mut u64) -> Key {
    let vip = draw(state, 2) as u8;
    let ip = 0x0a00_0009 + draw(state, 3) as u32;
    let port = 4000 + draw(state, 8) as u16;
    Key { vip, ip, port }
}

// A slot, now and then one that the layout doesn't have, or a row.
fn draw_place(state: &mut u64) -> Place {
    if draw(state, 3) == 0 {
        return Place::Row {
            row: draw(state, 4) as u32,
        };
    }
    Place::Slot {
        way: 1 + draw(state, 2) as u8,
        bucket: draw(state, 3) as u32,
        cell: draw(state, 4) as u8,
    }
}

// One call of both; whether they answer alike.
fn call_both(
    alloc: Global,
    book: &mut Book,
    plain: &mut Plain,
    key: Key,
    place: Place,
    state: &mut u64,
) -> Result<bool, AllocError> {
    match draw(state, 9) {
        0 | 1 | 2 => take_both(alloc, book, plain, key, draw(state, 3) as u8),
        3 | 4 => Ok(book.settle(key, place) == plain.settle(key, place)),
        5 => Ok(book.leave(key) == plain.leave(key)),
        6 => Ok(sweep_both(book, plain, key, draw(state, 2) == 0)),
        7 => Ok(book.close(key) == plain.close(key)),
        _ => Ok(book.retire(key) == plain.retire(key)),
    }
}

fn take_both(
    alloc: Global,
    book: &mut Book,
    plain: &mut Plain,
    key: Key,
    version: u8,
) -> Result<bool, AllocError> {
    let took = book.take(alloc, key, version)?;
    Ok(took == plain.take(key, version)?)
}

fn sweep_both(book: &mut Book, plain: &mut Plain, key: Key, hit: bool) -> bool {
    book.sweep(key, hit) == plain.sweep(key, hit)
}

// Whether both have the same entries in the same order.
fn same_entries(book: &Book, plain: &Plain) -> bool {
    for i in 0..plain.len() {
        if book.at(i) != plain.at(i) {
            return false;
        }
    }
    book.len() == plain.len()
}

// Whether both find the same entries.
fn same_finds(book: &Book, plain: &Plain, key: Key, number: u64) -> bool {
    book.get(key) == plain.get(key)
        && book.first(number, false) == plain.first(number, false)
        && book.first(number, true) == plain.first(number, true)
}

// Whether both count the same.
fn same_counts(book: &Book, plain: &Plain, layout: &Layout, key: Key, place: Place) -> bool {
    book.holder(place) == plain.holder(place)
        && book.clashing(key) == plain.clashing(layout, key)
        && book.standing(key) == plain.standing(layout, key)
        && book.count(key.vip, 0) == plain.count(key.vip, 0)
}

// One call of both, and a look at all that they tell; whether they are alike.
fn step(
    alloc: Global,
    book: &mut Book,
    plain: &mut Plain,
    layout: &Layout,
    state: &mut u64,
) -> Result<bool, AllocError> {
    let key = draw_key(state);
    let place = draw_place(state);
    let answers = call_both(alloc, book, plain, key, place, state)?;
    let number = draw(state, 700);
    Ok(
        answers
            && same_entries(book, plain)
            && same_finds(book, plain, key, number)
            && same_counts(book, plain, layout, key, place),
    )
}

// So many calls of both; the first after which they aren't alike.
fn first_unlike(
    alloc: Global,
    book: &mut Book,
    plain: &mut Plain,
    layout: &Layout,
    calls: u32,
) -> Result<Option<u32>, AllocError> {
    let mut state: u64 = 7;
    for call in 0..calls {
        if !step(alloc, book, plain, layout, &mut state)? {
            return Ok(Some(call));
        }
    }
    Ok(None)
}

// The same of a new book and a new list.
fn first_unlike_of(alloc: Global, layout: &Layout, calls: u32) -> Result<Option<u32>, AllocError> {
    let mut book = Book::new(alloc, layout)?;
    let mut plain = Plain::new(alloc);
    first_unlike(alloc, &mut book, &mut plain, layout, calls)
}

#[test]
fn a_long_run_is_as_on_a_plain_list(rt: HostRuntime) -> Result<(), Fail> {
    let layout = small_layout().expect(&rt, "a layout");
    assert_eq!(rt; first_unlike_of(rt.alloc(), &layout, 2000)?, None);
    Ok(())
}
