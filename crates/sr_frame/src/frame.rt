ghost use Rattle.std.specs.Prelude.{◌≡◌, ◌≤◌, ◌⊎◌, length};
ghost use Rattle.sr_frame.specs.Frame.{seen};

use crate::Seen;
use crate::ethernet::see_frame;
use crate::ipv4::see_packet;

// The link type of Ethernet.
const ETHERNET: u16 = 1;

/// What is seen in a captured frame of this link type, 1 (Ethernet) or 101 (raw IP). The virtual addresses are numbered by their
/// positions from 0; the first one that fits counts.
pub fn read(link: u16, bytes: &[u8], vips: &[(u32, u16)]) -> Seen
    requires link { (link ≡ 1) ⊎ (link ≡ 101) }
    requires vips { length vips.now ≤ 16 }
    ensures { result ≡ seen link bytes.now vips.now }
{
    if link == ETHERNET {
        see_frame(bytes, vips)
    } else {
        see_packet(bytes, vips)
    }
}
