//! What a step ends, and for which key an update waits.

ghost use Rattle.std.specs.Prelude.{◌≡◌, ◌==◌, option_map, if◌then◌else◌};
ghost use Rattle.sr_machine.specs.Waiting.{is_under_way};
ghost use Rattle.sr_machine.specs.declared.act.Act.TheVariants as act;
ghost use Rattle.sr_machine.specs.declared.turn.Turn.TheVariants.{Did, NotYet};
ghost use Rattle.sr_machine.specs.Settling.{awaited, awaited_in};
ghost use Rattle.sr_machine.specs.Starting.{begun};
ghost use Rattle.sr_machine.specs.Deciding.{vip_at};
ghost use Rattle.sr_machine.specs.Turning.{cleared_act, drain_act, draw_act, grace_act, live_act, rest_of, store_act, turn_at};
ghost use Rattle.sr_acts.specs.Fits.{FitsJob};
ghost use Rattle.sr_acts.specs.Pending.{awaiting_by, awaiting_in};

use crate::ControllerMachine;
use crate::awaiting::Awaiting;
use crate::controller_machine::is_free;
use crate::waiting::{has_next, is_under_way, is_wait_done};
use sr_base::{Key, Phase};
use sr_machine::{Act, Aim, Draw, Job, PoolUpdate, Store, Turn, Wait, Why};
use sr_shadow::Entry;

impl ControllerMachine {
    /// What its next step ends, if the step answers this: nothing where the act goes on.
    #[tactic(auto, using(crate::proofs::Turns::turn_free, crate::proofs::Turns::turn_set, crate::proofs::Begun::free_is))]
    pub fn ends(&self, answer: u64) -> Option<Turn>
        ensures { result ≡ turn_at self.now.config (begun self.now.config self.now.view) (begun self.now.config self.now.view).job answer }
    {
        if is_free(&self.job) {
            let act = self.first_act();
            return self.turn_at(&act.job(), answer);
        }
        self.turn_at(&self.job, answer)
    }

    /// The first key for which the update that is under way waits.
    pub fn awaited(&self) -> Option<Key>
        ensures { result ≡ option_map (λ e. e.key) (awaited self.now.view) }
    {
        let update = self.update?;
        let entry = self.awaited_by(&update)?;
        Some(entry.key)
    }

    // The entry for which an update waits.
    #[tactic(auto, using(crate::proofs::Awaited::awaited_is))]
    fn awaited_by(&self, update: &PoolUpdate) -> Option<Entry>
        ensures { result ≡ awaited_in self.now.view update.now (vip_at self.now.view.vips update.now.vip).phase }
    {
        let awaiting = self.awaiting(update)?;
        self.book.first_awaited(&awaiting)
    }

    // What the update that is under way is waiting for.
    pub(crate) fn awaiting_now(&self) -> Option<Awaiting>
        ensures { result ≡ awaiting_by self.now.view.update self.now.view.mark self.now.view.vips }
    {
        match &self.update {
            Some(update) => self.awaiting(update),
            None => None,
        }
    }

    // What an update is waiting for, in a placing.
    pub(crate) fn awaiting(&self, update: &PoolUpdate) -> Option<Awaiting>
        ensures { result ≡ awaiting_in update.now self.now.view.mark (vip_at self.now.view.vips update.now.vip).phase }
    {
        let word = self.versions.vip(update.vip);
        match word.phase {
            Phase::Recording => Some(Awaiting::BeforeHold {
                vip: update.vip,
                mark: self.mark,
            }),
            Phase::Transit => Some(Awaiting::BeforeFinish {
                vip: update.vip,
                replaced: update.replaced,
            }),
            _ => None,
        }
    }

    // What a step of this job ends, if it answered this.
    fn turn_at(&self, job: &Job, x: u64) -> Option<Turn>
        requires { FitsJob self.now.config job.now }
        ensures { result ≡ turn_at self.now.config self.now.view job.now x }
    {
        match job {
            Job::Free => None,
            Job::Draw(draw) => draw_turn(draw),
            Job::Store(store) => store_turn(store),
            Job::Pass { grace, pipe, .. } => Some(pass_turn(*grace, *pipe, x)),
            Job::Drain { pipe, count, wait } => {
                let done = is_wait_done(self.config.layout(), *pipe, *count, x);
                Some(Turn::Did(drain_act(done, wait, x)))
            }
            Job::Look { pipe } => {
                if x != 0 {
                    Some(Turn::Did(Act::Took))
                } else if has_next(self.config.layout(), *pipe) {
                    None
                } else {
                    Some(self.rest())
                }
            }
            Job::Hit { .. } => Some(Turn::Did(Act::Swept)),
        }
    }

    // Nothing is to be done: what is waited for, if anything is.
    fn rest(&self) -> Turn
        ensures { result ≡ rest_of self.now.view }
    {
        if let Some(entry) = self.book.ledger().first_pending(0) {
            return Turn::NoRoom { key: entry.key };
        }
        match self.full_change() {
            Some(give) => Turn::VersionsFull { vip: give.vip },
            None => Turn::Idle,
        }
    }
}

fn live_act(aim: &Aim) -> Act
    ensures { result ≡ live_act aim.now }
{
    match aim {
        Aim::Move { .. } => Act::Moved,
        _ => Act::Committed,
    }
}

fn grace_act(wait: &Wait) -> Act
    ensures { result ≡ grace_act wait.now }
{
    match wait {
        Wait::Judge(_) => Act::Reserved,
        Wait::Live(put) => live_act(&put.aim),
        Wait::Retire(_) => Act::Retired,
        Wait::Comes { .. } => Act::Phase,
        Wait::Release { .. } => Act::Phase,
    }
}

// What a tick ends.
fn draw_turn(draw: &Draw) -> Option<Turn>
    ensures { result ≡ option_map Did (draw_act draw.now) }
{
    match draw {
        Draw::Grace(wait) => Some(Turn::Did(grace_act(wait))),
        Draw::Refused(_) => Some(Turn::Did(Act::Refused)),
        Draw::Cleared { why, .. } => match why {
            Why::Withdrawn(_) => Some(Turn::Did(Act::Withdrawn)),
            Why::Source => Some(Turn::Did(Act::Cleared)),
            Why::Retired(_) => None,
        },
        Draw::Answer(_) => Some(Turn::Did(Act::Answered)),
        Draw::From(_) => Some(Turn::Did(Act::Swept)),
        Draw::Swept { .. } => Some(Turn::Did(Act::Swept)),
        _ => None,
    }
}

// What a store ends.
fn store_turn(store: &Store) -> Option<Turn>
    ensures { result ≡ option_map Did (store_act store.now) }
{
    match store {
        Store::Down(_) => Some(Turn::Did(Act::Downed)),
        Store::Member { .. } => Some(Turn::Did(Act::Wrote)),
        Store::Head(_) => Some(Turn::Did(Act::Wrote)),
        Store::Filter { .. } => Some(Turn::Did(Act::Wrote)),
        _ => None,
    }
}

// What a load of a pipe's note ends.
fn pass_turn(grace: u64, pipe: u8, x: u64) -> Turn
    ensures { result ≡ (if is_under_way grace x then NotYet pipe x else Did act.Passed) }
{
    if is_under_way(grace, x) {
        Turn::NotYet { pipe, entered: x }
    } else {
        Turn::Did(Act::Passed)
    }
}

// What a drain's step does: the one that ends a release frees the number.
fn drain_act(done: bool, wait: &Wait, x: u64) -> Act
    ensures { result ≡ drain_act done wait.now x }
{
    match wait {
        Wait::Release { .. } => { if done { Act::Released } else { taken_act(x) } }
        _ => taken_act(x),
    }
}

// A word was taken, or the ring was empty.
fn taken_act(x: u64) -> Act
    ensures { result ≡ (if x == 0 then act.Drained else act.Took) }
{
    if x == 0 { Act::Drained } else { Act::Took }
}
