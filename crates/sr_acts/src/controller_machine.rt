ghost use Rattle.std.specs.Prelude.{◌≡◌, map, replicate, ◌&&◌, is_none, ◌+◌, ◌^◌, ◌<◌, ◌≤◌, ◌∷◌, ◌++◌, [], false, true, option_map, Some, None, IfOk, IfSome, IsSome, OnOk, if◌then◌else◌};
ghost use Rattle.sr_base.specs.WordName.{HasWord};
ghost use Rattle.sr_machine.specs.Controller.{controller_after, controller_op};
ghost use Rattle.sr_machine.specs.Deciding.{in_bounds, words_taken};
ghost use Rattle.sr_machine.specs.Jobs.{job_after};
ghost use Rattle.sr_machine.specs.Names.{word_name};
ghost use Rattle.std.specs.List.{range_with_len};
ghost use Rattle.sr_machine.specs.Opening.{opening_controller, opening_line};
ghost use Rattle.sr_machine.specs.declared.job.Job.TheVariants.{Free};
ghost use Rattle.sr_acts.specs.Fits.{FitsFirst};
ghost use Rattle.sr_acts.specs.Rooms.{added};
ghost use Rattle.sr_standing.specs.Standing.{Standing};
ghost use Rattle.sr_acts.specs.Starts.{is_free, job_for, start_for};
ghost use Rattle.sr_machine.specs.Ops.{op_name};
ghost use Rattle.sr_machine.specs.Starting.{begun, first_act, with_start};
ghost use Rattle.std.specs.List.{AllByRecursion};
ghost use Rattle.sr_update.specs.Numbers.{least_free};
ghost use Rattle.sr_update.specs.Updates.{has_come};
ghost use Rattle.sr_machine.specs.Telling.{full_change, is_at_leisure, may_refuse, told_time, told_to_refuse};

use crate::beginning::Beginning;
use crate::written::Written;
use crate::{HeldOpeners, MachineConfig, Outages, PlannedBook, Versions};
use sr_base::{Version, layout_ranges};
use sr_law::Line;
use sr_machine::{Draw, Job, Op, PoolUpdate, RingCount, Store};
use sr_shadow::ledger_rules;
use sr_standing::standings_are_kept;
use sr_update::{GiveChange, Updates};
use std::alloc::{AllocError, Global};
use std::marker::Model;

/// The controller: its next step, and what it knows after it. It touches no word itself: whoever has the words makes the step, and
/// tells what it answered.
#[derive(Drop)]
pub struct ControllerMachine {
    pub(crate) config: MachineConfig,
    pub(crate) updates: Updates,
    pub(crate) outages: Outages,
    pub(crate) refusing: bool,
    pub(crate) book: PlannedBook,
    pub(crate) rings: Vec<RingCount>,
    pub(crate) held: HeldOpeners,
    pub(crate) versions: Versions,
    pub(crate) down: Vec<u32>,
    pub(crate) update: Option<PoolUpdate>,
    pub(crate) mark: u64,
    pub(crate) sweeps: u64,
    pub(crate) swept_ms: u64,
    pub(crate) job: Job,
    pub(crate) drawn: u64,
    pub(crate) lines: Written,
}

impl Model for ControllerMachine {
    ghost use Rattle.std.specs.Prelude.{◌≡◌, ◌-◌, ◌<◌, min, length, IfSome, vec_capacity, vec_len};
    ghost use Rattle.std.specs.List.{AllByRecursion};
    ghost use Rattle.sr_machine.specs.Deciding.{words_taken};
    ghost use Rattle.sr_acts.specs.Fits.{AreCounted, FitsGive, FitsJob, FitsUpdate};
    ghost use Rattle.sr_acts.specs.HeldController.{HeldController};
    ghost use Rattle.sr_standing.specs.Standing.{Standing};

    ghost Value = { HeldController };

    ghost view = { λ m. record {
      config = m.config;
      view = record {
        gives = m.updates.gives;
        outages = m.outages;
        clock = m.updates.clock;
        refusing = m.refusing;
        book = m.book.book;
        rings = m.rings.items;
        held = m.held.openers;
        numbers = m.versions.numbers;
        named = m.versions.named;
        vips = m.versions.vips;
        down = m.down.items;
        update = m.update;
        mark = m.mark;
        sweeps = m.sweeps;
        swept_ms = m.swept_ms;
        job = m.job;
        drawn = m.drawn;
        lines = m.lines.lines;
      };
      room = min (min m.book.room m.held.room) (min (vec_capacity m.down - vec_len m.down) m.lines.room);
    } };

    ghost invariant = { λ m. (m.book.layout ≡ m.config.layout)
        × (m.versions.layout ≡ m.config.layout)
        × AllByRecursion (FitsGive m.config) m.updates.gives
        × AllByRecursion (λ o. o.server < m.config.layout.servers) m.outages
        × (length m.rings.items ≡ m.config.layout.shape.pipes)
        × IfSome m.update (FitsUpdate m.config)
        × FitsJob m.config m.job
        × AreCounted m.drawn (words_taken m.rings.items) m.sweeps m.book.book.taken m.job
        × Standing m.book.book.entries m.job };
}

impl ControllerMachine {
    /// The controller at the beginning.
    pub fn new(alloc: Global, config: MachineConfig) -> Result<ControllerMachine, AllocError>
        ensures config { IfOk result (λ m. m.config ≡ config) }
        ensures view { IfOk result (λ m. m.view ≡ opening_controller config) }
    {
        config.fits();
        let layout = *config.layout();
        layout_ranges(&layout);
        let updates = Updates::new(alloc, config.changes())?;
        let outages = Outages::new(alloc, config.changes())?;
        let rings = no_words(alloc, layout.shape().pipes)?;
        let versions = Versions::new(alloc, &layout)?;
        let lines = opening_lines(alloc, layout.vips())?;
        let book = PlannedBook::new(alloc, &layout)?;
        Ok(ControllerMachine {
            config,
            updates,
            outages,
            refusing: false,
            book,
            rings,
            held: HeldOpeners::new(alloc),
            versions,
            down: Vec::new(alloc),
            update: None,
            mark: 0,
            sweeps: 0,
            swept_ms: 0,
            job: Job::Free,
            drawn: 0,
            lines,
        })
    }

    /// Its next atomic step. None past 2^56 ticks or words.
    #[tactic(auto, using(crate::proofs::Begun::op_free, crate::proofs::Begun::op_set, crate::proofs::Begun::free_is))]
    pub fn next(&self) -> Option<Op>
        ensures value { result ≡ controller_op self.now.config self.now.view }
        ensures named { IfSome result (λ op. HasWord self.now.config.layout (word_name (op_name op))) }
    {
        if !self.in_bounds() {
            return None;
        }
        if is_free(&self.job) {
            let act = self.first_act();
            return self.job_op(&act.job());
        }
        self.job_op(&self.job)
    }

    /// Its next act's first job is set, where none is. It makes no step: what is told before the step counts for it.
    #[tactic(auto, using(crate::proofs::Begun::begun_free, crate::proofs::Begun::begun_set, crate::proofs::Begun::free_is))]
    pub fn begin(&mut self)
        ensures config { self.new.config ≡ self.old.config }
        ensures view { self.new.view ≡ begun self.old.config self.old.view }
        ensures room { self.new.room ≡ self.old.room }
    {
        if is_free(&self.job) {
            standings_are_kept();
            ledger_rules(self.book.ledger());
            let act = self.first_act();
            self.start(&act);
        }
    }

    /// The step was made, and answered this.
    pub fn after(&mut self, answer: u64)
        requires next { IsSome (controller_op self.old.config self.old.view) }
        requires room { 0 < self.old.room }
        ensures config { self.new.config ≡ self.old.config }
        ensures view { self.new.view ≡ controller_after self.old.config self.old.view answer }
        ensures room { self.old.room ≤ self.new.room + added (begun self.old.config self.old.view).job }
    {
        self.begin();
        let job = self.job;
        self.acted(&job, answer);
        self.look_ahead();
    }

    // A free controller looks over the pending entries that it hasn't asked yet, so that each is asked once.
    fn look_ahead(&mut self)
        ensures { self.new ≡ self.old }
    {
        if is_free(&self.job) {
            let awaiting = self.awaiting_now();
            self.book.look_ahead(awaiting);
        }
    }

    // The step of this job was made, which had begun.
    fn acted(&mut self, job: &Job, answer: u64)
        requires job { self.old.view.job ≡ job.now }
        requires bounds { in_bounds self.old.view ≡ true }
        requires room { 0 < self.old.room }
        ensures config { self.new.config ≡ self.old.config }
        ensures view { self.new.view ≡ job_after self.old.config self.old.view job.now answer }
        ensures room { self.old.room ≤ self.new.room + added job.now }
    {
        match job {
            Job::Free => {}
            Job::Draw(draw) => self.drew(draw, answer),
            Job::Store(store) => self.stored(store),
            Job::Pass { grace, pipe, wait } => self.passed(*grace, *pipe, wait, answer),
            Job::Drain { pipe, count, wait } => self.drained(*pipe, *count, wait, answer),
            Job::Look { pipe } => self.looked(*pipe, answer),
            Job::Hit {
                from,
                at_ms,
                key,
                place,
                taken,
            } => self.hit(*from, *at_ms, *key, *place, *taken, answer),
        }
    }

    // This is begun.
    fn start(&mut self, act: &Beginning)
        requires free { self.old.view.job ≡ Free }
        requires fits { FitsFirst self.old.config (job_for act.now) }
        requires stands { Standing self.old.view.book.entries (job_for act.now) }
        ensures config { self.new.config ≡ self.old.config }
        ensures view { self.new.view ≡ with_start self.old.view (start_for self.old.view act.now) }
        ensures room { self.new.room ≡ self.old.room }
    {
        match act {
            Beginning::Refusal(change) => {
                self.updates.drop_first();
                self.refusing = false;
                self.job = Job::Draw(Draw::Refused(*change));
            }
            Beginning::Outage(server) => {
                self.outages.drop_first();
                self.job = Job::Draw(Draw::TakenDown(*server));
            }
            Beginning::Update(update) => {
                self.updates.drop_first();
                self.update = Some(*update);
                self.mark = 0;
                self.job = Job::Store(Store::Member {
                    update: *update,
                    index: 0,
                });
            }
            Beginning::Just(job) => {
                self.job = *job;
            }
        }
    }

    /// What it was made for.
    pub fn config(&self) -> &MachineConfig
        ensures { result.now ≡ self.now.config }
    {
        &self.config
    }

    /// Its job.
    pub fn job(&self) -> &Job
        ensures { result.now ≡ self.now.view.job }
    {
        &self.job
    }

    /// Its lines so far.
    pub fn lines(&self) -> &[Line]
        ensures { result.now ≡ self.now.view.lines }
    {
        self.lines.lines()
    }

    /// The capture time that it was told last, in milliseconds.
    pub fn clock(&self) -> Option<u64>
        ensures { result ≡ self.now.view.clock }
    {
        self.updates.clock()
    }

    /// How many ticks it has drawn.
    pub fn drawn(&self) -> u64
        ensures { result ≡ self.now.view.drawn }
    {
        self.drawn
    }

    /// How many words it has taken from all rings.
    pub fn taken(&self) -> u64
        ensures { result ≡ words_taken self.now.view.rings }
    {
        words_taken(self.rings.as_slice())
    }

    /// Makes room for what so many steps add at least.
    pub fn reserve(&mut self, steps: usize) -> Result<(), AllocError>
        ensures config { self.new.config ≡ self.old.config }
        ensures view { self.new.view ≡ self.old.view }
        ensures room { OnOk result (steps ≤ self.new.room) }
        ensures kept { self.old.room ≤ self.new.room }
    {
        self.book.reserve(steps)?;
        self.held.reserve(steps)?;
        self.down.reserve(steps)?;
        self.lines.reserve(steps)
    }

    // Whether fewer than 2^56 ticks were drawn, and fewer than 2^56 words taken.
    pub(crate) fn in_bounds(&self) -> bool
        ensures { result ≡ in_bounds self.now.view }
    {
        self.drawn < 1 << 56 && words_taken(self.rings.as_slice()) < 1 << 56
    }

    /// The controller is told the time, in milliseconds of capture time. False, and nothing changed, where the clock would fall.
    pub fn due(&mut self, ms: u64) -> bool
        ensures config { self.new.config ≡ self.old.config }
        ensures told { told_time ms self.old.view ≡ (if result then Some self.new.view else None) }
        ensures room { self.new.room ≡ self.old.room }
        ensures same { result ≡ false → self.new ≡ self.old }
    {
        if let Some(clock) = self.updates.clock() {
            if ms < clock {
                return false;
            }
        }
        self.updates.due(ms);
        true
    }

    /// The controller is told to refuse a change. False, and nothing changed, where something that it does could yet free a number
    /// for the first change that is due, or where none finds its virtual address without one.
    pub fn refuse(&mut self) -> bool
        ensures config { self.new.config ≡ self.old.config }
        ensures told { told_to_refuse self.old.view ≡ (if result then Some self.new.view else None) }
        ensures room { self.new.room ≡ self.old.room }
        ensures same { result ≡ false → self.new ≡ self.old }
    {
        if !self.may_refuse() {
            return false;
        }
        self.refusing = true;
        true
    }

    // Whether nothing that it does could free a number for the first change that is due, which finds none.
    fn may_refuse(&self) -> bool
        ensures { result ≡ may_refuse self.now.view }
    {
        !self.refusing
            && self.update.is_none()
            && is_at_leisure(&self.job)
            && self.versions.first_drained(self.book.ledger()).is_none()
            && self.full_change().is_some()
    }

    /// The first change of a pool, where it is due and finds no free number of its virtual address.
    pub fn full_change(&self) -> Option<GiveChange>
        ensures { result ≡ full_change self.now.view.clock self.now.view.numbers self.now.view.gives }
    {
        match self.updates.gives() {
            [] => None,
            [give, ..] => {
                if finds_none(&self.versions, self.updates.clock(), give) {
                    Some(*give)
                } else {
                    None
                }
            }
        }
    }
}

// Nothing was taken from the rings of so many pipes.
fn no_words(alloc: Global, pipes: u8) -> Result<Vec<RingCount>, AllocError>
    ensures { IfOk result (λ v. v.items ≡ replicate pipes (record { words = 0; punts = 0 })) }
{
    let mut rings = Vec::new(alloc);
    for _pipe in 0..pipes {
        rings.push(RingCount { words: 0, punts: 0 })?;
    }
    Ok(rings)
}

// The lines of the first pools of so many virtual addresses.
fn opening_lines(alloc: Global, vips: u8) -> Result<Written, AllocError>
    ensures { IfOk result (λ w. w.lines ≡ map opening_line (range_with_len 0 vips)) }
{
    let mut lines = Written::new(alloc);
    for vip in 0..vips {
        lines.reserve(1)?;
        lines.push(opening_line(vip));
    }
    Ok(lines)
}

// That of one.
fn opening_line(vip: u8) -> Line
    ensures { result ≡ opening_line vip }
{
    Line::Given {
        out: vip as u64 + 1,
        vip,
        version: Version::zero(),
        pool: 1,
    }
}

// Whether no job is set.
pub(crate) fn is_free(job: &Job) -> bool
    ensures { result ≡ is_free job.now }
{
    match job {
        Job::Free => true,
        _ => false,
    }
}

// How many words were taken from all rings.
fn words_taken(rings: &[RingCount]) -> u64
    requires { words_taken rings.now ≤ 2 ^ 56 }
    ensures { result ≡ words_taken rings.now }
{
    let mut words = 0;
    for ring in rings {
        words += ring.words;
    }
    words
}

// Whether no job is in progress; a look at the rings is none.
fn is_at_leisure(job: &Job) -> bool
    ensures { result ≡ is_at_leisure job.now }
{
    match job {
        Job::Free => true,
        Job::Look { .. } => true,
        _ => false,
    }
}

// Whether the clock has reached a time.
pub(crate) fn has_come(at_ms: u64, clock: Option<u64>) -> bool
    ensures { result ≡ has_come at_ms clock }
{
    match clock {
        Some(ms) => at_ms <= ms,
        None => false,
    }
}

// Whether a change is due and finds no free number.
fn finds_none(versions: &Versions, clock: Option<u64>, give: &GiveChange) -> bool
    requires { give.now.vip < versions.now.layout.vips }
    ensures { result ≡ (has_come give.now.at_ms clock && is_none (least_free give.now.vip versions.now.numbers)) }
{
    has_come(give.at_ms, clock) && versions.least_free(give.vip).is_none()
}
