ghost use Rattle.std.specs.Prelude.{◌≡◌};
ghost use Rattle.sr_acts.specs.Starts.{job_for};

use sr_machine::{Draw, Job, PoolUpdate, Store};

// What a free controller begins.
#[derive(Clone, Copy)]
pub(crate) enum Beginning {
    // The first change of a pool is dropped and refused, the one at this position.
    Refusal(u32),
    // The first server that is to be taken down is, this one.
    Outage(u32),
    // The first change of a pool is made by this update.
    Update(PoolUpdate),
    // This job, and nothing else changes.
    Just(Job),
}

impl Beginning {
    // Its first job.
    pub(crate) fn job(&self) -> Job
        ensures { result ≡ job_for self.now }
    {
        match self {
            Beginning::Refusal(change) => Job::Draw(Draw::Refused(*change)),
            Beginning::Outage(server) => Job::Draw(Draw::TakenDown(*server)),
            Beginning::Update(update) => Job::Store(Store::Member {
                update: *update,
                index: 0,
            }),
            Beginning::Just(job) => *job,
        }
    }
}
