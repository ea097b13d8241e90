//! The controller draws a tick.

ghost use Rattle.std.specs.Prelude.{◌≡◌, ℕ, ◌+◌, ◌^◌, ◌<◌, ◌≤◌, is_some, option_map, true, if◌then◌else◌};
ghost use Rattle.std.specs.List.{AllByRecursion};
ghost use Rattle.sr_machine.specs.Config.{Config};
ghost use Rattle.sr_machine.specs.Deciding.{in_bounds};
ghost use Rattle.sr_machine.specs.Draws.{answer_line, cleared_job, draw_job, draw_line, hit_job, phase_job, phase_line, sweep_job, sweeping, with_line};
ghost use Rattle.sr_machine.specs.Jobs.{job_after};
ghost use Rattle.sr_machine.specs.declared.job.Job.TheVariants as job;
ghost use Rattle.sr_acts.specs.Fits.{FitsDraw, FitsJob, FitsUpdate, owed, owed_draw};
ghost use Rattle.sr_shadow.specs.Ledger.{FitsEntry};
ghost use Rattle.sr_acts.specs.Rooms.{added_draw};

use crate::written::Written;
use crate::{ControllerMachine, MachineConfig};
use sr_base::{Key, Phase, layout_ranges};
use sr_law::Line;
use sr_machine::{Draw, Job, PoolUpdate, Reply, Store, Wait, Why};
use sr_shadow::{Ledger, ledger_rules};
use sr_update::NumberState;

impl ControllerMachine {
    // A tick was drawn, this one.
    pub(crate) fn drew(&mut self, draw: &Draw, tick: u64)
        requires job { self.old.view.job ≡ job.Draw draw.now }
        requires bounds { in_bounds self.old.view ≡ true }
        requires room { 0 < self.old.room }
        ensures config { self.new.config ≡ self.old.config }
        ensures view { self.new.view ≡ job_after self.old.config self.old.view (job.Draw draw.now) tick }
        ensures room { self.old.room ≤ self.new.room + added_draw draw.now }
    {
        ledger_rules(self.book.ledger());
        let line = self.draw_line(draw, tick);
        let next = self.draw_job(draw, tick);
        write(&mut self.lines, line);
        self.drawn += 1;
        self.job = next;
        match draw {
            Draw::Given(update) => {
                self.versions.name(update.vip, update.given, update.pool);
                self.versions
                    .set(update.vip, update.given, NumberState::Current);
            }
            Draw::TakenDown(server) => self.down.push_reserved(*server),
            Draw::Retired { key, .. } => self.book.retire(*key),
            Draw::Answer(_) => self.held.drop_first(),
            Draw::Swept { at_ms, .. } => {
                self.sweeps += 1;
                self.swept_ms = *at_ms;
            }
            Draw::Grace(_) => {}
            Draw::Refused(_) => {}
            Draw::Comes { .. } => {}
            Draw::Reserved(_) => {}
            Draw::Placed(_) => {}
            Draw::Cleared { .. } => {}
            Draw::From(_) => {}
        }
    }

    // The line whose tick was drawn, if there is one.
    fn draw_line(&self, draw: &Draw, tick: u64) -> Option<Line>
        requires { in_bounds self.now.view ≡ true }
        ensures { result ≡ draw_line self.now.config self.now.view draw.now tick }
    {
        match draw {
            Draw::Grace(_) => None,
            Draw::Refused(change) => Some(Line::Refused {
                out: tick,
                change: *change,
            }),
            Draw::TakenDown(server) => Some(Line::TakenDown {
                out: tick,
                server: *server,
            }),
            Draw::Given(update) => Some(Line::Given {
                out: tick,
                vip: update.vip,
                version: update.given,
                pool: update.pool,
            }),
            Draw::Comes { update, phase } => Some(phase_line(update, tick, *phase)),
            Draw::Reserved(put) => Some(Line::Reserved {
                out: tick,
                key: put.key,
                place: put.place,
            }),
            Draw::Placed(put) => Some(Line::Placed {
                out: tick,
                key: put.key,
                place: put.place,
            }),
            Draw::Cleared { key, place, .. } => Some(Line::Cleared {
                out: tick,
                key: *key,
                place: *place,
            }),
            Draw::Retired { key, .. } => Some(Line::Retired {
                out: tick,
                key: *key,
            }),
            Draw::Answer(reply) => Some(self.answer_line(reply, tick)),
            Draw::From(_) => None,
            Draw::Swept { from, at_ms } => Some(Line::Swept {
                number: self.sweeps + 1,
                from: *from,
                to: tick,
                at_ms: *at_ms,
            }),
        }
    }

    // The line of an answer.
    fn answer_line(&self, reply: &Reply, tick: u64) -> Line
        ensures { result ≡ answer_line self.now.config self.now.view reply.now tick }
    {
        Line::Answer {
            out: tick,
            pipe: reply.held.pipe,
            nth: reply.held.nth,
            key: reply.held.key,
            verdict: self.verdict_of(reply.held.key, reply.version),
        }
    }

    // The job after it.
    fn draw_job(&self, draw: &Draw, tick: u64) -> Job
        requires { FitsDraw self.now.config draw.now }
        ensures value { result ≡ draw_job self.now.view draw.now tick }
        ensures fits { FitsJob self.now.config result }
        ensures owed { owed result ≤ owed_draw draw.now + 1 }
    {
        layout_ranges(self.config.layout());
        match draw {
            Draw::Grace(wait) => Job::Pass {
                grace: tick,
                pipe: 0,
                wait: *wait,
            },
            Draw::Refused(_) => Job::Free,
            Draw::TakenDown(server) => Job::Store(Store::Down(*server)),
            Draw::Given(update) => Job::Draw(Draw::Comes {
                update: *update,
                phase: Phase::Recording,
            }),
            Draw::Comes { update, phase } => phase_job(&self.config, update, *phase),
            Draw::Reserved(put) => Job::Store(Store::Reserved(*put)),
            Draw::Placed(put) => Job::Draw(Draw::Grace(Wait::Live(*put))),
            Draw::Cleared { key, why, .. } => cleared_job(&self.config, *key, why),
            Draw::Retired {
                key,
                place,
                version,
            } => Job::Store(Store::Empty {
                key: *key,
                place: *place,
                why: Why::Retired(*version),
            }),
            Draw::Answer(_) => Job::Free,
            Draw::From(ms) => sweeping(&self.config, self.book.ledger(), tick, *ms, 0),
            Draw::Swept { .. } => Job::Free,
        }
    }
}

// Writes a line, if there is one.
fn write(lines: &mut Written, line: Option<Line>)
    requires { 0 < lines.old.room }
    ensures lines { lines.new.lines ≡ with_line lines.old.lines line }
    ensures room { lines.old.room ≤ lines.new.room + (if is_some line then 1 else 0) }
{
    if let Some(line) = line {
        lines.push(line);
    }
}

// The line of a phase.
fn phase_line(update: &PoolUpdate, tick: u64, phase: Phase) -> Line
    ensures { result ≡ phase_line update.now tick phase }
{
    match phase {
        Phase::Steady => Line::Finished {
            out: tick,
            vip: update.vip,
        },
        Phase::Recording => Line::Recorded {
            out: tick,
            vip: update.vip,
        },
        Phase::Holding => Line::Hold {
            out: tick,
            vip: update.vip,
        },
        Phase::Transit => Line::Switched {
            out: tick,
            vip: update.vip,
            pool: update.pool,
        },
    }
}

// The phases that are told before their store, and those after it.
fn phase_job(config: &MachineConfig, update: &PoolUpdate, phase: Phase) -> Job
    requires { FitsUpdate config.now update.now }
    ensures value { result ≡ phase_job update.now phase }
    ensures fits { FitsJob config.now result }
    ensures owed { owed result ≡ 0 }
{
    let _ = config;
    match phase {
        Phase::Recording => Job::Store(Store::Vip {
            update: *update,
            phase,
        }),
        Phase::Holding => Job::Store(Store::Vip {
            update: *update,
            phase,
        }),
        _ => Job::Draw(Draw::Grace(Wait::Comes {
            update: *update,
            phase,
        })),
    }
}

// A place was emptied: a held opener is answered, where that is why; a connection that is over is waited for.
fn cleared_job(config: &MachineConfig, key: Key, why: &Why) -> Job
    ensures value { result ≡ cleared_job key why.now }
    ensures fits { FitsJob config.now result }
    ensures owed { owed result ≡ 0 }
{
    let _ = config;
    match why {
        Why::Withdrawn(None) => Job::Free,
        Why::Withdrawn(Some(reply)) => Job::Draw(Draw::Answer(*reply)),
        Why::Source => Job::Free,
        Why::Retired(_) => Job::Draw(Draw::Grace(Wait::Retire(key))),
    }
}

// A sweep takes the hit of the first placed entry of those taken from a number on, and is over where there is none.
pub(crate) fn sweeping(
    config: &MachineConfig,
    book: &Ledger,
    from: u64,
    ms: u64,
    number: u64,
) -> Job
    requires { book.now.layout ≡ config.now.layout }
    ensures value { result ≡ sweeping book.now.book.entries from ms number }
    ensures fits { FitsJob config.now result }
    ensures owed { owed result ≡ 0 }
{
    let _ = config;
    let _taken = book.taken();
    let Some(entry) = book.first_placed(number) else {
        return Job::Draw(Draw::Swept { from, at_ms: ms });
    };
    match entry.place {
        Some(place) => Job::Hit {
            from,
            at_ms: ms,
            key: entry.key,
            place,
            taken: entry.taken,
        },
        None => Job::Draw(Draw::Swept { from, at_ms: ms }),
    }
}
