ghost use Rattle.std.specs.Prelude.{◌≡◌, None};
ghost use Rattle.sr_capture.specs.Clock.{seen_at, time_of};

/// The times of the records that were read: the first, and the latest.
#[derive(Clone, Copy, Debug)]
pub struct Clock {
    pub first: Option<u64>,
    pub latest: u64,
}

impl Clock {
    /// No record was read.
    pub fn new() -> Clock
        ensures { result ≡ record { first = None; latest = 0 } }
    {
        Clock {
            first: None,
            latest: 0,
        }
    }

    /// A record with this time was read.
    pub fn see(&mut self, ms: u64)
        ensures { self.new ≡ seen_at self.old ms }
    {
        self.first = Some(self.first.unwrap_or(ms));
        self.latest = self.latest.max(ms);
    }

    /// The time of the last record: the latest one, less the first.
    pub fn time(&self) -> u64
        ensures { result ≡ time_of self.now }
    {
        self.latest.saturating_sub(self.first.unwrap_or(0))
    }
}
