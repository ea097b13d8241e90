ghost use Rattle.std.specs.Prelude.{◌≡◌, ◌<◌, ◌≤◌, length, option_map, IfSome};
ghost use Rattle.sr_frame.specs.Vip.{vip_number};

/// The number of the virtual address that is this address and port: its position in the list, from 0.
pub fn number_of(vips: &[(u32, u16)], address: u32, port: u16) -> Option<u8>
    requires { length vips.now ≤ 16 }
    ensures number { result ≡ vip_number 0 address port vips.now }
    ensures bound { IfSome result (λ number. number < 16) }
{
    for (number, vip) in vips.iter().enumerate() {
        if vip.0 == address && vip.1 == port {
            return Some(number as u8);
        }
    }
    None
}
