//! The controller's next step: which word, and what.

ghost use Rattle.std.specs.Prelude.{◌≡◌, ◌<◌, IfSome};
ghost use Rattle.sr_base.specs.WordName.{HasWord};
ghost use Rattle.sr_machine.specs.Deciding.{ring_count};
ghost use Rattle.sr_machine.specs.Jobs.{job_op};
ghost use Rattle.sr_machine.specs.Names.{word_name};
ghost use Rattle.sr_machine.specs.Ops.{op_name};
ghost use Rattle.sr_machine.specs.Stores.{store_name, store_value};
ghost use Rattle.sr_machine.specs.Stages.{ring_cell};
ghost use Rattle.sr_machine.specs.declared.store.Store.TheVariants as store;
ghost use Rattle.sr_acts.specs.Fits.{FitsJob, FitsStore};

use crate::asking::version_for;
use crate::versions::phase_word;
use crate::words::{live_word, reserved_word, ring_cell};
use crate::{ControllerMachine, MachineConfig};
use sr_base::RowHead;
use sr_machine::{Job, Name, Op, Put, RingCount, Store};

impl ControllerMachine {
    // The step of a job; none where no job is set.
    pub(crate) fn job_op(&self, job: &Job) -> Option<Op>
        requires { FitsJob self.now.config job.now }
        ensures value { result ≡ job_op self.now.config self.now.view job.now }
        ensures named { IfSome result (λ op. HasWord self.now.config.layout (word_name (op_name op))) }
    {
        match job {
            Job::Free => None,
            Job::Draw(_) => Some(Op::Adds {
                name: Name::Tick,
                by: 1,
            }),
            Job::Store(store) => Some(Op::Stores {
                name: store_name(&self.config, store),
                value: self.store_value(store),
            }),
            Job::Pass { pipe, .. } => Some(Op::Loads {
                name: Name::Note { pipe: *pipe },
            }),
            Job::Drain { pipe, .. } => Some(Op::Swaps {
                name: self.ring_name(*pipe),
                value: 0,
            }),
            Job::Look { pipe } => Some(Op::Swaps {
                name: self.ring_name(*pipe),
                value: 0,
            }),
            Job::Hit { place, .. } => Some(Op::Swaps {
                name: Name::Hit { place: *place },
                value: 0,
            }),
        }
    }

    // What was taken from the ring of a pipe.
    pub(crate) fn ring_count(&self, pipe: u8) -> RingCount
        requires { pipe < self.now.config.layout.shape.pipes }
        ensures { result ≡ ring_count self.now.view.rings pipe }
    {
        self.rings[pipe as usize]
    }

    // The cell of a pipe's ring from which the next word is taken.
    fn ring_name(&self, pipe: u8) -> Name
        requires { pipe < self.now.config.layout.shape.pipes }
        ensures value { result ≡ ring_cell self.now.config.layout pipe (ring_count self.now.view.rings pipe).words }
        ensures named { HasWord self.now.config.layout (word_name result) }
    {
        let count = self.ring_count(pipe);
        ring_cell(self.config.layout(), pipe, count.words)
    }

    // What is stored.
    fn store_value(&self, store: &Store) -> u64
        requires { FitsStore self.now.config store.now }
        ensures { result ≡ store_value self.now.config self.now.view store.now }
    {
        match store {
            Store::Down(_) => 1,
            Store::Member { update, index } => self.pool_server(update, *index) as u64,
            Store::Head(update) => {
                let head = RowHead {
                    size: self.pool_size(update),
                    pool: update.pool,
                };
                head.pack()
            }
            Store::Vip { update, phase } => {
                let word = phase_word(update, *phase);
                word.pack()
            }
            Store::Filter { .. } => 0,
            Store::Reserved(put) => reserved_word(self.config.layout(), put.place, put.key),
            Store::Judge(put) => self.judged_word(put),
            Store::Empty { .. } => 0,
        }
    }

    // A reserved entry becomes live, or is given up.
    fn judged_word(&self, put: &Put) -> u64
        requires { FitsStore self.now.config (store.Judge put.now) }
        ensures { result ≡ store_value self.now.config self.now.view (store.Judge put.now) }
    {
        if self.is_withdrawn(put) {
            0
        } else {
            let version = version_for(&self.versions, self.book.ledger(), put.key);
            live_word(self.config.layout(), put.place, put.key, version)
        }
    }
}

// Which word is stored.
fn store_name(config: &MachineConfig, store: &Store) -> Name
    requires { FitsStore config.now store.now }
    ensures value { result ≡ store_name store.now }
    ensures named { HasWord config.now.layout (word_name result) }
{
    let _ = config;
    match store {
        Store::Down(server) => Name::Down { server: *server },
        Store::Member { update, index } => Name::Member {
            vip: update.vip,
            version: update.given.number(),
            index: *index,
        },
        Store::Head(update) => Name::Head {
            vip: update.vip,
            version: update.given.number(),
        },
        Store::Vip { update, .. } => Name::Vip { vip: update.vip },
        Store::Filter { index, .. } => Name::Filter { index: *index },
        Store::Reserved(put) => Name::Entry { place: put.place },
        Store::Judge(put) => Name::Entry { place: put.place },
        Store::Empty { place, .. } => Name::Entry { place: *place },
    }
}
