//! What the controller does with a word that it takes from a ring.

ghost use Rattle.std.specs.Prelude.{◌≡◌, ◌+◌, ◌^◌, ◌<◌, ◌≤◌, true};
ghost use Rattle.sr_machine.specs.Deciding.{in_bounds};
ghost use Rattle.sr_standing.specs.Standing.{Standing};
ghost use Rattle.sr_machine.specs.Taking.{book_after, book_by, count_after, held_after, holds_opener, is_ended, is_punt, taking};

use crate::words::read_report;
use crate::{ControllerMachine, HeldOpeners, PlannedBook, Versions};
use sr_base::{Key, RingKind, RingWord};
use sr_machine::{HeldOpener, RingCount};

impl ControllerMachine {
    // A swap of a ring's cell answered this: 0 is no word.
    #[tactic(auto, unfolding(sr_machine::specs::Taking::taking), using(crate::proofs::Takes::words_more))]
    pub(crate) fn take(&mut self, ended: Option<Key>, pipe: u8, x: u64)
        requires pipe { pipe < self.old.config.layout.shape.pipes }
        requires bounds { in_bounds self.old.view ≡ true }
        requires room { 0 < self.old.room }
        requires stands { Standing (taking self.old.config self.old.view ended pipe x).book.entries self.old.view.job }
        ensures config { self.new.config ≡ self.old.config }
        ensures view { self.new.view ≡ record self.old.view {
          rings = (taking self.old.config self.old.view ended pipe x).rings;
          held = (taking self.old.config self.old.view ended pipe x).held;
          book = (taking self.old.config self.old.view ended pipe x).book;
        } }
        ensures room { self.old.room ≤ self.new.room + 1 }
    {
        if x == 0 {
            return;
        }
        let report = read_report(self.config.layout(), x);
        let count = self.ring_count(pipe);
        hold(&mut self.held, pipe, count.punts, &report);
        register(&mut self.book, &self.versions, ended, &report);
        self.rings[pipe as usize] = count_after(holds_opener(&report, count.punts), count);
    }
}

// Whether this report counts as that of a held opener.
fn is_punt(kind: RingKind, punts: u32) -> bool
    ensures { result ≡ is_punt kind punts }
{
    match kind {
        RingKind::Punt => punts < u32::MAX,
        _ => false,
    }
}

fn holds_opener(report: &Option<RingWord>, punts: u32) -> bool
    ensures { result ≡ holds_opener report.now punts }
{
    match report {
        Some(word) => is_punt(word.kind, punts),
        None => false,
    }
}

// A word was taken from the ring of a pipe.
fn count_after(punt: bool, count: RingCount) -> RingCount
    requires words { count.words < 2 ^ 60 }
    requires punts { punt ≡ true → count.punts + 1 < 2 ^ 32 }
    ensures { result ≡ count_after punt count }
{
    RingCount {
        words: count.words + 1,
        punts: if punt { count.punts + 1 } else { count.punts },
    }
}

// The report of a held opener comes to the held ones.
fn hold(held: &mut HeldOpeners, pipe: u8, punts: u32, report: &Option<RingWord>)
    requires { 0 < held.old.room }
    ensures openers { held.new.openers ≡ held_after pipe punts held.old.openers report.now }
    ensures room { held.old.room ≤ held.new.room + 1 }
{
    if let Some(word) = report {
        if is_punt(word.kind, punts) {
            held.push(HeldOpener {
                pipe,
                nth: punts + 1,
                key: word.key,
            });
        }
    }
}

// Whether the report is of the connection that is over.
fn is_ended(key: Key, ended: Option<Key>) -> bool
    ensures { result ≡ is_ended key ended }
{
    match ended {
        Some(ended) => key.same(ended),
        None => false,
    }
}

// A learned key is registered; a registered key whose connection ended is marked so.
fn register(
    book: &mut PlannedBook,
    versions: &Versions,
    ended: Option<Key>,
    report: &Option<RingWord>,
)
    requires room { 0 < book.old.room }
    requires few { book.old.book.taken < 2 ^ 58 }
    ensures layout { book.new.layout ≡ book.old.layout }
    ensures book { book.new.book ≡ book_after versions.now.numbers ended book.old.book report.now }
    ensures taken { book.new.book.taken ≤ book.old.book.taken + 1 }
    ensures room { book.old.room ≤ book.new.room + 1 }
{
    let Some(word) = report else {
        return;
    };
    match word.kind {
        RingKind::Learn => {
            if versions.is_current(word.key.vip, word.version) {
                book.take(word.key, word.version);
            }
        }
        RingKind::Punt => {}
        RingKind::Close => {
            if !is_ended(word.key, ended) {
                book.close(word.key);
            }
        }
    }
}
