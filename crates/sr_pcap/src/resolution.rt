ghost use Rattle.std.specs.Prelude.{◌≡◌, ◌<◌};
ghost use Rattle.sr_pcap.specs.Resolution.{resolution_of, per_millisecond};

/// What the fraction of a second in a record's time counts.
#[derive(Clone, Copy, Debug, PartialEq, Eq)]
pub enum Resolution {
    /// Microseconds.
    Microseconds,
    /// Nanoseconds.
    Nanoseconds,
}

impl Resolution {
    /// The resolution that a magic stands for, if it is one.
    pub fn of_magic(magic: u32) -> Option<Resolution>
        ensures { result ≡ resolution_of magic }
    {
        match magic {
            0xa1b2_c3d4 => Some(Resolution::Microseconds),
            0xa1b2_3c4d => Some(Resolution::Nanoseconds),
            _ => None,
        }
    }

    /// How many of its units a millisecond has.
    pub fn per_millisecond(self) -> u32
        ensures count { result ≡ per_millisecond self }
        ensures some { 0 < result }
    {
        match self {
            Resolution::Microseconds => 1_000,
            Resolution::Nanoseconds => 1_000_000,
        }
    }
}
