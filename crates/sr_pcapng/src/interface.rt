ghost use Rattle.std.specs.Prelude.{◌≡◌, ◌<◌, ◌^◌, SomeIff};
ghost use Rattle.sr_pcapng.specs.Interface.{milliseconds, units_of};

// The latest time that is told, in milliseconds.
const LATEST: u64 = (1 << 53) - 1;

/// The resolution of an interface that gives none: microseconds.
pub const MICROSECONDS: u8 = 6;

// The resolution in nanoseconds.
const NANOSECONDS: u8 = 9;

/// What an interface description says of the packets of its interface.
#[derive(Clone, Copy, Debug, PartialEq, Eq)]
pub struct Interface {
    /// The link type.
    pub link: u16,
    /// The units of a second that a time counts: below 128 a power of 10, and else a power of 2 in the low seven bits.
    pub resolution: u8,
}

impl Interface {
    /// A time of this interface in whole milliseconds, at most 2^53 - 1.
    pub fn milliseconds(self, time: u64) -> u64
        ensures { result ≡ milliseconds self.resolution time }
    {
        match self.resolution {
            MICROSECONDS => (time / 1_000).min(LATEST),
            NANOSECONDS => (time / 1_000_000).min(LATEST),
            _ => self.quotient(time),
        }
    }

    // Such a time, whatever the units are.
    fn quotient(self, time: u64) -> u64
        ensures { result ≡ milliseconds self.resolution time }
    {
        match self.units() {
            Some(units) => (time as u128 * 1_000 / units).min(LATEST as u128) as u64,
            None => 0,
        }
    }

    // How many units a second has, where 128 bits hold the number.
    fn units(self) -> Option<u128>
        ensures { SomeIff result (units_of self.resolution < 2 ^ 128) (units_of self.resolution) }
    {
        let power = self.resolution as u32;
        if power < 128 {
            10u128.checked_pow(power)
        } else {
            2u128.checked_pow(power - 128)
        }
    }
}
