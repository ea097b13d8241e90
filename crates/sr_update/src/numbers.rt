ghost use Rattle.std.specs.Prelude.{◌≡◌, ◌<◌, IfOk, Some, length};
ghost use Rattle.sr_base.specs.declared.vip_word.Phase.TheVariants.{Recording as InRecording};
ghost use Rattle.sr_shadow.specs.Book.{count_of};
ghost use Rattle.sr_update.specs.Numbers.{opening_rows, row_of, state_of, with_state};
ghost use Rattle.sr_update.specs.Numbers.{least_free, current_of, current_count, first_drained};
ghost use Rattle.sr_update.specs.declared.number_state.NumberState.{NumberState as AState};
ghost use Rattle.sr_update.specs.declared.number_state.NumberState.TheVariants.{Free, Current, Draining};

use crate::row::Row;
use crate::{NumberState, Passed, Recording, Update};
use sr_base::{Layout, Version, layout_ranges};
use sr_shadow::{IndexedBook, Shadow};
use std::alloc::{AllocError, Global};
use std::marker::Model;

/// The state of each version number of each virtual address.
#[derive(Drop)]
pub struct Numbers {
    rows: Vec<Row>,
}

impl Model for Numbers {
    ghost use Rattle.std.specs.Prelude.{◌≤◌, length};
    ghost use Rattle.sr_update.specs.Numbers.{NumberRows};

    ghost Value = { NumberRows };

    ghost view = { λ n. n.rows.items };

    ghost invariant = { λ n. length n.rows.items ≤ 16 };
}

impl Numbers {
    /// Those of a layout: number 0 of each virtual address is Current, the others are Free.
    pub fn new(alloc: Global, layout: &Layout) -> Result<Numbers, AllocError>
        ensures { IfOk result (λ n. n ≡ opening_rows layout.now) }
    {
        layout_ranges(layout);
        let mut rows = Vec::new(alloc);
        for _vip in 0..layout.vips() {
            rows.push(Row::new(layout.shape().versions))?;
        }
        Ok(Numbers { rows })
    }

    /// The state of a number.
    pub fn state(&self, vip: u8, version: Version) -> NumberState
        requires { version < length (row_of vip self.now) }
        ensures { state_of vip version self.now ≡ Some result }
    {
        self.rows[vip as usize].get(version.number())
    }

    /// The least Free number of a virtual address.
    pub fn least_free(&self, vip: u8) -> Option<Version>
        requires { vip < length self.now }
        ensures { result ≡ least_free vip self.now }
    {
        match self.rows[vip as usize].least_free() {
            Some(n) => Some(version_of(n)),
            None => None,
        }
    }

    /// A number is given: it becomes Current, and an update begins, which replaces the virtual address's other Current number.
    pub fn given(&mut self, vip: u8, version: Version) -> Recording
        requires free { state_of vip version self.old ≡ Some Free }
        requires one { current_count vip self.old ≡ 1 }
        ensures numbers { self.new ≡ with_state vip version Current self.old }
        ensures phase { result.phase ≡ InRecording }
        ensures vip { result.update.vip ≡ vip }
        ensures given { result.update.given ≡ version }
        ensures replaced { Some result.update.replaced ≡ current_of vip self.old }
    {
        let replaced = self.current(vip);
        self.put(vip, version, NumberState::Current);
        Recording::of(Update {
            vip,
            given: version,
            replaced,
        })
    }

    /// The first Draining number, by virtual address and number, that no registered key has. The Draining numbers
    /// alone are looked at.
    pub fn first_drained(&self, book: &IndexedBook) -> Option<(u8, Version)>
        ensures { result ≡ first_drained self.now book.now.book.entries }
    {
        for vip in 0..self.rows.len() {
            if let Some(n) = self.rows[vip].drained(vip as u8, book) {
                return Some((vip as u8, version_of(n)));
            }
        }
        None
    }

    /// A number is Free again, once a grace has passed since no registered key has it.
    pub fn release(&mut self, vip: u8, version: Version, shadow: &Shadow, passed: Passed)
        requires draining { state_of vip version self.old ≡ Some Draining }
        requires unused { count_of vip version shadow.now.book.entries ≡ 0 }
        ensures { self.new ≡ with_state vip version Free self.old }
    {
        self.put(vip, version, NumberState::Free);
    }

    // The virtual address's Current number.
    fn current(&self, vip: u8) -> Version
        requires within { vip < length self.now }
        requires one { current_count vip self.now ≡ 1 }
        ensures { Some result ≡ current_of vip self.now }
    {
        match self.rows[vip as usize].current() {
            Some(n) => version_of(n),
            None => unreachable!(),
        }
    }

    /// A number's state becomes another.
    pub fn put(&mut self, vip: u8, version: Version, state: NumberState)
        requires { version < length (row_of vip self.old) }
        ensures { self.new ≡ with_state vip version state self.old }
    {
        let row = &mut self.rows[vip as usize];
        row.put(version.number(), state);
    }
}

// The version of a number below 64.
fn version_of(n: u8) -> Version
    requires { n < 64 }
    ensures { result ≡ n }
{
    match Version::new(n) {
        Some(version) => version,
        None => unreachable!(),
    }
}
