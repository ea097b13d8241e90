ghost use Rattle.std.specs.Prelude.{◌≡◌, ◌≤◌, ◌+◌, ◌++◌, OnOk, length};
ghost use Rattle.sr_capture.specs.Packets.{kept_of, seen_in, skip_of};

use crate::Kept;
use sr_base::Packet;
use sr_frame::{Seen, Skip, read};
use std::alloc::AllocError;

// The link types that are read: Ethernet, raw IP.
const ETHERNET: u16 = 1;

const RAW_IP: u16 = 101;

/// What is seen in a frame of any link type.
pub fn see(link: u16, bytes: &[u8], vips: &[(u32, u16)]) -> Seen
    requires { length vips.now ≤ 16 }
    ensures { result ≡ seen_in link bytes.now vips.now }
{
    if link == ETHERNET || link == RAW_IP {
        read(link, bytes, vips)
    } else {
        Seen::Skipped(Skip::NotIpv4)
    }
}

/// Keeps what was seen in the record of this position and time.
pub fn keep<T: Kept + Drop>(
    number: u32,
    ms: u64,
    seen: Seen,
    skips: &mut Vec<(u32, Skip)>,
    packets: &mut Vec<T>,
) -> Result<(), AllocError>
    ensures skips { OnOk result (skips.new.items ≡ skips.old.items ++ skip_of number seen) }
    ensures packets { OnOk result (packets.new.items ≡ packets.old.items ++ kept_of T.kept number ms seen) }
    ensures few { length packets.new.items ≤ length packets.old.items + 1 }
{
    match seen {
        Seen::Packet { key, kind } => {
            let kept = T::keep(Packet { number, key, kind }, ms);
            packets.push(kept)?;
            Ok(())
        }
        Seen::Skipped(why) => {
            skips.push((number, why))?;
            Ok(())
        }
    }
}
