//! The controller stores a word: what it knows then.

ghost use Rattle.std.specs.Prelude.{◌≡◌, ℕ, ◌+◌, ◌<◌, ◌≤◌, if◌then◌else◌};
ghost use Rattle.sr_machine.specs.Jobs.{job_after};
ghost use Rattle.sr_machine.specs.Stores.{is_last_filter, is_last_member, vip_draw};
ghost use Rattle.sr_machine.specs.declared.job.Job.TheVariants as job;
ghost use Rattle.sr_machine.specs.declared.store.Store.TheVariants as store;
ghost use Rattle.sr_base.specs.WordName.{filter_words};
ghost use Rattle.sr_acts.specs.Fits.{FitsStore, FitsUpdate, owed_store};
ghost use Rattle.sr_acts.specs.Rooms.{added_store};

use crate::ControllerMachine;
use crate::asking::version_for;
use crate::versions::phase_word;
use sr_base::{Layout, Phase, layout_ranges};
use sr_machine::{Draw, Job, PoolUpdate, Put, Store, Wait, Why};
use sr_shadow::ledger_rules;
use sr_standing::jobs_may_change;
use sr_update::NumberState;

impl ControllerMachine {
    // A word was stored, this one.
    pub(crate) fn stored(&mut self, store: &Store)
        requires job { self.old.view.job ≡ job.Store store.now }
        requires room { 0 < self.old.room }
        ensures config { self.new.config ≡ self.old.config }
        ensures view { (x : ℕ) → self.new.view ≡ job_after self.old.config self.old.view (job.Store store.now) x }
        ensures room { self.old.room ≤ self.new.room + added_store store.now }
    {
        ledger_rules(self.book.ledger());
        match store {
            Store::Down(_) => {
                self.job = Job::Free;
            }
            Store::Member { update, index } => {
                let next = self.member_next(update, *index);
                self.job = Job::Store(next);
            }
            Store::Head(update) => {
                self.job = Job::Draw(Draw::Given(*update));
            }
            Store::Vip { update, phase } => {
                self.versions.store(update.vip, phase_word(update, *phase));
                self.job = Job::Draw(vip_draw(update, *phase));
            }
            Store::Filter { update, index } => self.cleared(update, *index),
            Store::Reserved(put) => {
                self.job = Job::Draw(Draw::Grace(Wait::Judge(*put)));
            }
            Store::Judge(put) => self.judged(put),
            Store::Empty { key, place, why } => {
                self.book.leave(*key);
                self.job = Job::Draw(Draw::Cleared {
                    key: *key,
                    place: *place,
                    why: *why,
                });
            }
        }
    }

    // What is stored after a server of a new version.
    fn member_next(&self, update: &PoolUpdate, index: u8) -> Store
        requires update { FitsUpdate self.now.config update.now }
        requires index { index < self.now.config.layout.shape.pool_max }
        ensures value { result ≡ (if is_last_member self.now.config update.now index then store.Head update.now
            else store.Member update.now (index + 1)) }
        ensures fits { FitsStore self.now.config result }
        ensures owed { owed_store result ≡ 0 }
    {
        layout_ranges(self.config.layout());
        let size = self.pool_size(update);
        if index + 1 < size {
            Store::Member {
                update: *update,
                index: index + 1,
            }
        } else {
            Store::Head(*update)
        }
    }

    // A word of the transit filter was cleared; with the last one the update is over.
    fn cleared(&mut self, update: &PoolUpdate, index: u32)
        requires job { self.old.view.job ≡ job.Store (store.Filter update.now index) }
        ensures config { self.new.config ≡ self.old.config }
        ensures view { (x : ℕ) → self.new.view ≡ job_after self.old.config self.old.view (job.Store (store.Filter update.now index)) x }
        ensures room { self.new.room ≡ self.old.room }
    {
        layout_ranges(self.config.layout());
        ledger_rules(self.book.ledger());
        if is_last_filter(self.config.layout(), index) {
            self.versions
                .set(update.vip, update.replaced, NumberState::Draining);
            self.update = None;
            self.job = Job::Free;
        } else {
            self.job = Job::Store(Store::Filter {
                update: *update,
                index: index + 1,
            });
        }
    }

    // A reserved entry became live, or was given up.
    fn judged(&mut self, put: &Put)
        requires job { self.old.view.job ≡ job.Store (store.Judge put.now) }
        requires room { 0 < self.old.room }
        ensures config { self.new.config ≡ self.old.config }
        ensures view { (x : ℕ) → self.new.view ≡ job_after self.old.config self.old.view (job.Store (store.Judge put.now)) x }
        ensures room { self.old.room ≤ self.new.room + 1 }
    {
        ledger_rules(self.book.ledger());
        if self.is_withdrawn(put) {
            let reply = self.dead_reply(&put.aim);
            self.job = Job::Draw(Draw::Cleared {
                key: put.key,
                place: put.place,
                why: Why::Withdrawn(reply),
            });
        } else {
            let version = version_for(&self.versions, self.book.ledger(), put.key);
            jobs_may_change();
            self.book.take(put.key, version);
            self.book.settle(put.key, put.place);
            self.job = Job::Draw(Draw::Placed(*put));
        }
    }
}

// The phases that are told before their store, and those after it.
fn vip_draw(update: &PoolUpdate, phase: Phase) -> Draw
    ensures { result ≡ vip_draw update.now phase }
{
    match phase {
        Phase::Recording => Draw::Grace(Wait::Comes {
            update: *update,
            phase,
        }),
        Phase::Holding => Draw::Grace(Wait::Comes {
            update: *update,
            phase,
        }),
        _ => Draw::Comes {
            update: *update,
            phase,
        },
    }
}

// Whether this was the last word of the transit filter.
fn is_last_filter(layout: &Layout, index: u32) -> bool
    requires { index < filter_words layout.now.shape }
    ensures { result ≡ is_last_filter layout.now index }
{
    layout_ranges(layout);
    index + 1 >= (layout.shape().filter_bits / 64).max(1)
}
