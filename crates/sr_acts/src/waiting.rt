//! The controller waits for pipes, takes what is in the rings, and sweeps.

ghost use Rattle.std.specs.Prelude.{◌≡◌, ℕ, ◌+◌, ◌^◌, ◌<◌, ◌≤◌, Option, Some, None, true};
ghost use Rattle.sr_base.specs.declared.vip_word.VipWord.{VipWord as AWord};
ghost use Rattle.sr_machine.specs.Deciding.{in_bounds};
ghost use Rattle.sr_machine.specs.Jobs.{job_after, marked, released};
ghost use Rattle.sr_machine.specs.Taking.{ended_by};
ghost use Rattle.sr_machine.specs.Waiting.{all_passed, drain_job, has_next, is_ring_done, is_under_way, is_wait_done, live_job, look_job, next_pass, next_ring, pass_job, passed_phase, waited_job, waited_phase};
ghost use Rattle.sr_machine.specs.declared.job.Job.TheVariants as job;
ghost use Rattle.sr_acts.specs.Fits.{FitsJob, FitsPut, FitsUpdate, FitsWait, owed, owed_wait};

use crate::asking::version_for;
use crate::drawing::sweeping;
use crate::words::read_flag;
use crate::{ControllerMachine, MachineConfig, Versions};
use sr_base::{Key, Layout, Phase, Place, layout_ranges};
use sr_machine::{Aim, Draw, Job, PoolUpdate, Put, Reply, Store, Wait, Why};
use sr_shadow::{Ledger, ledger_rules};
use sr_standing::standings_are_kept;
use sr_update::NumberState;

impl ControllerMachine {
    // A pipe's note was loaded, in a wait.
    pub(crate) fn passed(&mut self, grace: u64, pipe: u8, wait: &Wait, x: u64)
        requires job { self.old.view.job ≡ job.Pass grace pipe wait.now }
        ensures config { self.new.config ≡ self.old.config }
        ensures view { self.new.view ≡ job_after self.old.config self.old.view (job.Pass grace pipe wait.now) x }
        ensures room { self.new.room ≡ self.old.room }
    {
        ledger_rules(self.book.ledger());
        self.job = pass_job(&self.config, grace, pipe, wait, x);
    }

    // A ring's cell was swapped, in a wait.
    pub(crate) fn drained(&mut self, pipe: u8, count: u32, wait: &Wait, x: u64)
        requires job { self.old.view.job ≡ job.Drain pipe count wait.now }
        requires bounds { in_bounds self.old.view ≡ true }
        requires room { 0 < self.old.room }
        ensures config { self.new.config ≡ self.old.config }
        ensures view { self.new.view ≡ job_after self.old.config self.old.view (job.Drain pipe count wait.now) x }
        ensures room { self.old.room ≤ self.new.room + 1 }
    {
        standings_are_kept();
        ledger_rules(self.book.ledger());
        self.take(ended_by(wait), pipe, x);
        let next = drain_job(
            &self.config,
            &self.versions,
            self.book.ledger(),
            pipe,
            count,
            wait,
            x,
        );
        let done = is_wait_done(self.config.layout(), pipe, count, x);
        let mark = marked(done, wait, self.book.ledger().taken(), self.mark);
        release(&self.config, &mut self.versions, done, wait);
        self.mark = mark;
        self.job = next;
    }

    // A ring's cell was swapped, as nothing else was to be done.
    pub(crate) fn looked(&mut self, pipe: u8, x: u64)
        requires job { self.old.view.job ≡ job.Look pipe }
        requires bounds { in_bounds self.old.view ≡ true }
        requires room { 0 < self.old.room }
        ensures config { self.new.config ≡ self.old.config }
        ensures view { self.new.view ≡ job_after self.old.config self.old.view (job.Look pipe) x }
        ensures room { self.old.room ≤ self.new.room + 1 }
    {
        standings_are_kept();
        ledger_rules(self.book.ledger());
        self.take(None, pipe, x);
        self.job = look_job(&self.config, pipe, x);
    }

    // The hit of an entry was taken.
    pub(crate) fn hit(&mut self, from: u64, ms: u64, key: Key, place: Place, taken: u64, x: u64)
        requires job { self.old.view.job ≡ job.Hit from ms key place taken }
        ensures config { self.new.config ≡ self.old.config }
        ensures view { self.new.view ≡ job_after self.old.config self.old.view (job.Hit from ms key place taken) x }
        ensures room { self.old.room ≤ self.new.room }
    {
        ledger_rules(self.book.ledger());
        self.book.sweep(key, read_flag(x));
        self.job = sweeping(&self.config, self.book.ledger(), from, ms, taken + 1);
    }
}

// ---- a pipe's packet

// Whether there is a pipe after this one.
pub(crate) fn has_next(layout: &Layout, pipe: u8) -> bool
    requires { pipe < layout.now.shape.pipes }
    ensures { result ≡ has_next layout.now pipe }
{
    layout_ranges(layout);
    pipe + 1 < layout.shape().pipes
}

// Whether a note tells a packet that entered before the wait began.
pub(crate) fn is_under_way(grace: u64, x: u64) -> bool
    ensures { result ≡ is_under_way grace x }
{
    0 < x && x < grace
}

// The job after a note was loaded.
fn pass_job(config: &MachineConfig, grace: u64, pipe: u8, wait: &Wait, x: u64) -> Job
    requires pipe { pipe < config.now.layout.shape.pipes }
    requires wait { FitsWait config.now wait.now }
    ensures value { result ≡ pass_job config.now.layout grace pipe wait.now x }
    ensures fits { FitsJob config.now result }
    ensures owed { owed result ≤ owed_wait wait.now }
{
    layout_ranges(config.layout());
    if is_under_way(grace, x) {
        return Job::Pass {
            grace,
            pipe,
            wait: *wait,
        };
    }
    if has_next(config.layout(), pipe) {
        return Job::Pass {
            grace,
            pipe: pipe + 1,
            wait: *wait,
        };
    }
    all_passed(config, wait)
}

// Every pipe has passed: the reports are taken; an update in Holding or over goes on at once.
fn all_passed(config: &MachineConfig, wait: &Wait) -> Job
    requires { FitsWait config.now wait.now }
    ensures value { result ≡ all_passed wait.now }
    ensures fits { FitsJob config.now result }
    ensures owed { owed result ≤ owed_wait wait.now }
{
    layout_ranges(config.layout());
    match wait {
        Wait::Comes { update, phase } => passed_phase(config, update, *phase),
        _ => Job::Drain {
            pipe: 0,
            count: 0,
            wait: *wait,
        },
    }
}

// That of an update.
fn passed_phase(config: &MachineConfig, update: &PoolUpdate, phase: Phase) -> Job
    requires { FitsUpdate config.now update.now }
    ensures value { result ≡ passed_phase update.now phase }
    ensures fits { FitsJob config.now result }
    ensures owed { owed result ≡ 0 }
{
    layout_ranges(config.layout());
    match phase {
        Phase::Steady => Job::Store(Store::Filter {
            update: *update,
            index: 0,
        }),
        Phase::Holding => Job::Store(Store::Vip {
            update: *update,
            phase: Phase::Transit,
        }),
        _ => Job::Drain {
            pipe: 0,
            count: 0,
            wait: Wait::Comes {
                update: *update,
                phase,
            },
        },
    }
}

// ---- a ring

// Whether the ring of a wait is done with: its cell was empty, or as many words were taken from it as it has cells.
fn is_ring_done(layout: &Layout, count: u32, x: u64) -> bool
    requires { count < layout.now.shape.ring }
    ensures { result ≡ is_ring_done layout.now count x }
{
    layout_ranges(layout);
    x == 0 || count + 1 == layout.shape().ring
}

// And whether the wait is.
pub(crate) fn is_wait_done(layout: &Layout, pipe: u8, count: u32, x: u64) -> bool
    requires pipe { pipe < layout.now.shape.pipes }
    requires count { count < layout.now.shape.ring }
    ensures { result ≡ is_wait_done layout.now pipe count x }
{
    is_ring_done(layout, count, x) && !has_next(layout, pipe)
}

// The mark, which the end of an update's first drain sets.
fn marked(done: bool, wait: &Wait, taken: u64, mark: u64) -> u64
    ensures { result ≡ marked done wait.now taken mark }
{
    match wait {
        Wait::Comes { phase, .. } => match phase {
            Phase::Recording => { if done { taken } else { mark } }
            Phase::Steady => mark,
            Phase::Holding => mark,
            Phase::Transit => mark,
        },
        Wait::Judge(_) => mark,
        Wait::Live(_) => mark,
        Wait::Retire(_) => mark,
        Wait::Release { .. } => mark,
    }
}

// A number that was waited for is free.
fn release(config: &MachineConfig, versions: &mut Versions, done: bool, wait: &Wait)
    requires fits { FitsWait config.now wait.now }
    requires made { versions.old.layout ≡ config.now.layout }
    ensures { versions.new ≡ record versions.old { numbers = released done wait.now versions.old.numbers } }
{
    let _ = config;
    match wait {
        Wait::Release { vip, version } => {
            if done {
                versions.set(*vip, *version, NumberState::Free);
            }
        }
        Wait::Judge(_) => {}
        Wait::Live(_) => {}
        Wait::Retire(_) => {}
        Wait::Comes { .. } => {}
    }
}

// The key whose retirement a wait is for.
fn ended_by(wait: &Wait) -> Option<Key>
    ensures { (pipe count : ℕ) → result ≡ ended_by (job.Drain pipe count wait.now) }
{
    match wait {
        Wait::Retire(key) => Some(*key),
        _ => None,
    }
}

// The job after a cell was swapped in a wait. The entries are those after the take.
fn drain_job(
    config: &MachineConfig,
    versions: &Versions,
    book: &Ledger,
    pipe: u8,
    count: u32,
    wait: &Wait,
    x: u64,
) -> Job
    requires pipe { pipe < config.now.layout.shape.pipes }
    requires count { count < config.now.layout.shape.ring }
    requires wait { FitsWait config.now wait.now }
    ensures value { result ≡ drain_job config.now.layout versions.now.vips book.now.book.entries pipe count wait.now x }
    ensures fits { FitsJob config.now result }
    ensures owed { owed result ≤ owed_wait wait.now }
{
    layout_ranges(config.layout());
    if !is_ring_done(config.layout(), count, x) {
        return Job::Drain {
            pipe,
            count: count + 1,
            wait: *wait,
        };
    }
    if has_next(config.layout(), pipe) {
        return Job::Drain {
            pipe: pipe + 1,
            count: 0,
            wait: *wait,
        };
    }
    waited_job(config, versions, book, wait)
}

// What a wait was for.
fn waited_job(config: &MachineConfig, versions: &Versions, book: &Ledger, wait: &Wait) -> Job
    requires { FitsWait config.now wait.now }
    ensures value { result ≡ waited_job versions.now.vips book.now.book.entries wait.now }
    ensures fits { FitsJob config.now result }
    ensures owed { owed result ≤ owed_wait wait.now }
{
    match wait {
        Wait::Judge(put) => Job::Store(Store::Judge(*put)),
        Wait::Live(put) => live_job(config, versions, book, put),
        Wait::Retire(_) => Job::Free,
        Wait::Comes { update, phase } => waited_phase(config, update, *phase),
        Wait::Release { .. } => Job::Free,
    }
}

// A key's entry has become live.
fn live_job(config: &MachineConfig, versions: &Versions, book: &Ledger, put: &Put) -> Job
    requires { FitsPut config.now.layout.shape put.now }
    ensures value { result ≡ live_job versions.now.vips book.now.book.entries put.now put.now.aim }
    ensures fits { FitsJob config.now result }
    ensures owed { owed result ≡ 0 }
{
    let _ = config;
    match &put.aim {
        Aim::Pending => Job::Free,
        Aim::Held(opener) => Job::Draw(Draw::Answer(Reply {
            held: *opener,
            version: Some(version_for(versions, book, put.key)),
        })),
        Aim::Move { from, .. } => Job::Store(Store::Empty {
            key: put.key,
            place: *from,
            why: Why::Source,
        }),
    }
}

// An update's wait is over.
fn waited_phase(config: &MachineConfig, update: &PoolUpdate, phase: Phase) -> Job
    requires { FitsUpdate config.now update.now }
    ensures value { result ≡ waited_phase update.now phase }
    ensures fits { FitsJob config.now result }
    ensures owed { owed result ≡ 0 }
{
    layout_ranges(config.layout());
    match phase {
        Phase::Steady => Job::Store(Store::Filter {
            update: *update,
            index: 0,
        }),
        Phase::Holding => Job::Store(Store::Vip {
            update: *update,
            phase: Phase::Transit,
        }),
        _ => Job::Free,
    }
}

// ---- a look

// The job after a cell was swapped in a look at the rings.
fn look_job(config: &MachineConfig, pipe: u8, x: u64) -> Job
    requires { pipe < config.now.layout.shape.pipes }
    ensures value { result ≡ look_job config.now.layout pipe x }
    ensures fits { FitsJob config.now result }
    ensures owed { owed result ≡ 0 }
{
    layout_ranges(config.layout());
    if x == 0 && has_next(config.layout(), pipe) {
        Job::Look { pipe: pipe + 1 }
    } else {
        Job::Free
    }
}
