ghost use Rattle.std.specs.Prelude.{◌≡◌, ◌<◌, ◌≤◌, ◌==◌, length, replicate, slice_get, slice_set, IfSome, Some};
ghost use Rattle.sr_shadow.specs.Book.{count_of};
ghost use Rattle.sr_update.specs.Numbers.{is_free, is_current, is_drained, opening_row, first_number};
ghost use Rattle.sr_update.specs.declared.number_state.NumberState.TheVariants.{Free};

use crate::NumberState;
use crate::number_set::{first_from, numbers_below, with_number};
use crate::number_state::{is_current, is_draining, is_free};
use sr_base::Version;
use sr_shadow::IndexedBook;
use std::marker::Model;

// The numbers of a virtual address, each with its state, and beside them the Free and the Draining ones as the bits of
// a word each.
#[derive(Drop)]
pub(crate) struct Row {
    states: [NumberState; 64],
    versions: u8,
    free: u64,
    draining: u64,
}

impl Model for Row {
    ghost use Rattle.std.specs.Prelude.{◌≡◌, List, length, take};
    ghost use Rattle.sr_update.specs.Row.{IsRow};
    ghost use Rattle.sr_update.specs.declared.number_state.NumberState.{NumberState as AState};

    ghost Value = { List AState };

    ghost view = { λ r. take r.versions r.states };

    ghost invariant = { λ r.
        (length (take r.versions r.states) ≡ r.versions) × IsRow (take r.versions r.states) r.free r.draining };
}

impl Row {
    // Number 0 is Current, the others are Free.
    pub(crate) fn new(versions: u8) -> Row
        requires some { 1 ≤ versions }
        requires most { versions ≤ 64 }
        ensures { result ≡ opening_row versions }
    {
        let mut row = Row {
            states: free_states(),
            versions,
            free: numbers_below(versions),
            draining: 0,
        };
        row.put(0, NumberState::Current);
        row
    }

    // A number's state.
    pub(crate) fn get(&self, n: u8) -> NumberState
        requires { n < length self.now }
        ensures { slice_get self.now n ≡ Some result }
    {
        self.states[n as usize]
    }

    // A number's state becomes another.
    pub(crate) fn put(&mut self, n: u8, state: NumberState)
        requires { n < length self.old }
        ensures { self.new ≡ slice_set self.old n state }
    {
        self.states[n as usize] = state;
        self.free = with_number(self.free, n, is_free(state));
        self.draining = with_number(self.draining, n, is_draining(state));
    }

    // The least Free number.
    pub(crate) fn least_free(&self) -> Option<u8>
        ensures value { result ≡ first_number (λ number. is_free) 0 self.now }
        ensures within { IfSome result (λ n. n < 64) }
    {
        first_from(self.free, 0)
    }

    // The least Current number.
    pub(crate) fn current(&self) -> Option<u8>
        ensures value { result ≡ first_number (λ number. is_current) 0 self.now }
        ensures within { IfSome result (λ n. n < 64) }
    {
        for n in 0..self.versions {
            if is_current(self.get(n)) {
                return Some(n);
            }
        }
        None
    }

    // The least Draining number that no registered key has, where this is the row of a virtual address. The Draining
    // ones alone are looked at.
    pub(crate) fn drained(&self, vip: u8, book: &IndexedBook) -> Option<u8>
        ensures value { result ≡ first_number (is_drained vip book.now.book.entries) 0 self.now }
        ensures within { IfSome result (λ n. n < 64) }
    {
        let mut from = 0;
        while let Some(n) = first_from(self.draining, from) {
            if is_unused(book, vip, n) {
                return Some(n);
            }
            from = n + 1;
        }
        None
    }
}

// Whether no registered key has this virtual address and number.
fn is_unused(book: &IndexedBook, vip: u8, n: u8) -> bool
    requires { n < 64 }
    ensures { result ≡ (count_of vip n book.now.book.entries == 0) }
{
    match Version::new(n) {
        Some(version) => book.count(vip, version) == 0,
        None => unreachable!(),
    }
}

// 64 numbers that are Free.
fn free_states() -> [NumberState; 64]
    ensures { result ≡ replicate 64 Free }
{
    [NumberState::Free; 64]
}
