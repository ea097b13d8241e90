//! What a controller without a job begins: the first act that applies, in the order of the acts.

ghost use Rattle.std.specs.Prelude.{◌≡◌, ◌<◌, ◌≤◌, option_map, IfSome};
ghost use Rattle.sr_machine.specs.Deciding.{vip_at};
ghost use Rattle.sr_machine.specs.Starting.{change_of, first_act, going_on, opener_act, opener_job, outage_act, pending_act, refusal_act, release_act, retire_act, retirement, sweep_act, update_act, update_to};
ghost use Rattle.sr_machine.specs.Starting.{planned_put};
ghost use Rattle.sr_machine.specs.declared.put.Aim.TheVariants as aim;
ghost use Rattle.sr_shadow.specs.Book.{entry_for};
ghost use Rattle.sr_acts.specs.Fits.{FitsFirst, FitsGive, FitsUpdate};
ghost use Rattle.sr_acts.specs.Starts.{job_for, start_for};

use crate::ControllerMachine;
use crate::asking::entry_for;
use crate::awaiting::Awaiting;
use crate::beginning::Beginning;
use crate::controller_machine::has_come;
use sr_base::{Phase, Version, layout_ranges};
use sr_machine::{Aim, Draw, HeldOpener, Job, PoolUpdate, Reply, Store, Wait};
use sr_update::GiveChange;

impl ControllerMachine {
    // What a free controller begins.
    #[tactic(auto, unfolding(sr_machine::specs::Starting::first_act))]
    pub(crate) fn first_act(&self) -> Beginning
        ensures value { start_for self.now.view result ≡ first_act self.now.config self.now.view }
        ensures fits { FitsFirst self.now.config (job_for result) }
    {
        layout_ranges(self.config.layout());
        if let Some(act) = self.refusal() {
            return act;
        }
        if let Some(act) = self.outage() {
            return act;
        }
        if let Some(act) = self.update_act() {
            return act;
        }
        if let Some(act) = self.opener() {
            return act;
        }
        if let Some(act) = self.pending() {
            return act;
        }
        if let Some(act) = self.retire() {
            return act;
        }
        if let Some(act) = self.sweep() {
            return act;
        }
        if let Some(act) = self.release() {
            return act;
        }
        Beginning::Just(Job::Look { pipe: 0 })
    }

    // A refusal that was told.
    fn refusal(&self) -> Option<Beginning>
        ensures value { option_map (start_for self.now.view) result ≡ refusal_act self.now.view }
        ensures fits { IfSome result (λ b. FitsFirst self.now.config (job_for b)) }
    {
        if !self.refusing {
            return None;
        }
        match self.updates.gives() {
            [] => None,
            [give, ..] => Some(Beginning::Refusal(give.position)),
        }
    }

    // A server that is to be taken down.
    #[tactic(auto, using(crate::proofs::Lists::first_of))]
    fn outage(&self) -> Option<Beginning>
        ensures value { option_map (start_for self.now.view) result ≡ outage_act self.now.view }
        ensures fits { IfSome result (λ b. FitsFirst self.now.config (job_for b)) }
    {
        match self.outages.first() {
            Some(outage) => {
                if has_come(outage.at_ms, self.updates.clock()) {
                    Some(Beginning::Outage(outage.server))
                } else {
                    None
                }
            }
            None => None,
        }
    }

    // The update that is under way, or the next one.
    fn update_act(&self) -> Option<Beginning>
        ensures value { option_map (start_for self.now.view) result ≡ update_act self.now.view }
        ensures fits { IfSome result (λ b. FitsFirst self.now.config (job_for b)) }
    {
        match &self.update {
            Some(update) => match self.going_on(update) {
                Some(job) => Some(Beginning::Just(job)),
                None => None,
            },
            None => self.change(),
        }
    }

    // The update in a placing goes on once it waits for nothing.
    fn going_on(&self, update: &PoolUpdate) -> Option<Job>
        requires { FitsUpdate self.now.config update.now }
        ensures value { result ≡ going_on self.now.view update.now (vip_at self.now.view.vips update.now.vip).phase }
        ensures fits { IfSome result (FitsFirst self.now.config) }
    {
        let word = self.versions.vip(update.vip);
        match word.phase {
            Phase::Recording => {
                let awaiting = Awaiting::BeforeHold {
                    vip: update.vip,
                    mark: self.mark,
                };
                if self.book.first_awaited(&awaiting).is_none() {
                    Some(Job::Draw(Draw::Comes {
                        update: *update,
                        phase: Phase::Holding,
                    }))
                } else {
                    None
                }
            }
            Phase::Transit => {
                let awaiting = Awaiting::BeforeFinish {
                    vip: update.vip,
                    replaced: update.replaced,
                };
                if self.book.first_awaited(&awaiting).is_none() {
                    Some(Job::Store(Store::Vip {
                        update: *update,
                        phase: Phase::Steady,
                    }))
                } else {
                    None
                }
            }
            _ => None,
        }
    }

    // The first change of a pool begins where it is due and its virtual address has a free number.
    fn change(&self) -> Option<Beginning>
        ensures value { option_map (start_for self.now.view) result ≡ change_of self.now.view self.now.view.gives }
        ensures fits { IfSome result (λ b. FitsFirst self.now.config (job_for b)) }
    {
        layout_ranges(self.config.layout());
        match self.updates.gives() {
            [] => None,
            [give, ..] => {
                if has_come(give.at_ms, self.updates.clock()) {
                    match self.versions.least_free(give.vip) {
                        Some(number) => { Some(Beginning::Update(self.update_to(give, number))) }
                        None => None,
                    }
                } else {
                    None
                }
            }
        }
    }

    // The update that makes a change under this number.
    fn update_to(&self, give: &GiveChange, number: Version) -> PoolUpdate
        requires give { FitsGive self.now.config give.now }
        requires number { number < self.now.config.layout.shape.versions }
        ensures value { result ≡ update_to self.now.view give.now number }
        ensures fits { FitsUpdate self.now.config result }
    {
        let word = self.versions.vip(give.vip);
        PoolUpdate {
            vip: give.vip,
            replaced: word.cur,
            given: number,
            pool: give.pool,
        }
    }

    // A held opener.
    #[tactic(auto, using(crate::proofs::Lists::first_of))]
    fn opener(&self) -> Option<Beginning>
        ensures value { option_map (start_for self.now.view) result ≡ opener_act self.now.config self.now.view }
        ensures fits { IfSome result (λ b. FitsFirst self.now.config (job_for b)) }
    {
        match self.held.first() {
            Some(opener) => Some(Beginning::Just(self.opener_job(&opener))),
            None => None,
        }
    }

    // It is answered where its key is registered or has no place; else its key is placed first.
    fn opener_job(&self, opener: &HeldOpener) -> Job
        ensures value { result ≡ opener_job opener.now (entry_for opener.now.key self.now.view.book.entries)
            (planned_put self.now.config.layout.shape self.now.view.book.entries opener.now.key (aim.Held opener.now)) }
        ensures fits { FitsFirst self.now.config result }
    {
        if let Some(entry) = entry_for(self.book.ledger(), opener.key) {
            return Job::Draw(Draw::Answer(Reply {
                held: *opener,
                version: Some(entry.version),
            }));
        }
        match self.book.planned_put(opener.key, &Aim::Held(*opener)) {
            Some(put) => Job::Draw(Draw::Reserved(put)),
            None => Job::Draw(Draw::Answer(Reply {
                held: *opener,
                version: None,
            })),
        }
    }

    // A pending key that has a place.
    fn pending(&self) -> Option<Beginning>
        ensures value { option_map (start_for self.now.view) result ≡ pending_act self.now.config self.now.view }
        ensures fits { IfSome result (λ b. FitsFirst self.now.config (job_for b)) }
    {
        match self.book.first_put() {
            Some(put) => Some(Beginning::Just(Job::Draw(Draw::Reserved(put)))),
            None => None,
        }
    }

    // A connection that is over.
    fn retire(&self) -> Option<Beginning>
        ensures value { option_map (start_for self.now.view) result ≡ retire_act self.now.config self.now.view }
        ensures fits { IfSome result (λ b. FitsFirst self.now.config (job_for b)) }
    {
        let entry = self.book.ledger().first_retirable()?;
        let place = entry.place?;
        Some(Beginning::Just(Job::Draw(Draw::Retired {
            key: entry.key,
            place,
            version: entry.version,
        })))
    }

    // A sweep that is due.
    fn sweep(&self) -> Option<Beginning>
        ensures value { option_map (start_for self.now.view) result ≡ sweep_act self.now.config self.now.view }
        ensures fits { IfSome result (λ b. FitsFirst self.now.config (job_for b)) }
    {
        let idle_ms = self.config.layout().shape().idle_ms;
        match self.updates.clock() {
            Some(ms) => {
                if idle_ms <= ms && self.swept_ms <= ms - idle_ms {
                    Some(Beginning::Just(Job::Draw(Draw::From(ms))))
                } else {
                    None
                }
            }
            None => None,
        }
    }

    // A number that drains and that no connection has.
    fn release(&self) -> Option<Beginning>
        ensures value { option_map (start_for self.now.view) result ≡ release_act self.now.view }
        ensures fits { IfSome result (λ b. FitsFirst self.now.config (job_for b)) }
    {
        match self.versions.first_drained(self.book.ledger()) {
            Some((vip, version)) => {
                Some(Beginning::Just(Job::Draw(Draw::Grace(Wait::Release { vip, version }))))
            }
            None => None,
        }
    }
}
