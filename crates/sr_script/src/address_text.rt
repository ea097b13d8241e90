ghost use Rattle.std.specs.Prelude.{◌≡◌, ◌≤◌, option_map, IfSome};
ghost use Rattle.sr_script.specs.Address.{after_byte, part_front, port_of, address_of};

use sr_decimal::number_front;

/// The IPv4 address and the port of a text `a.b.c.d:p`: four numbers 0 to 255 and a port 1 to 65,535, in decimal digits without leading
/// zeros. None for every other text.
#[tactic(auto, unfolding(crate::specs::Address::address_of))]
pub fn address(text: &str) -> Option<(u32, u16)>
    ensures { result ≡ address_of text.now }
{
    let (a, rest) = part_front(b'.', text.as_bytes())?;
    let (b, rest) = part_front(b'.', rest)?;
    let (c, rest) = part_front(b'.', rest)?;
    let (d, rest) = part_front(b':', rest)?;
    let port = port(rest)?;
    Some((((a * 256 + b) * 256 + c) * 256 + d, port))
}

// A number up to 255, and what follows the separator after it.
#[tactic(auto, unfolding(crate::specs::Address::part_front))]
fn part_front(separator: u8, bytes: &[u8]) -> Option<(u32, &[u8])>
    ensures value { option_map (λ x. (x.0, x.1.now)) result ≡ part_front separator bytes.now }
    ensures bound { IfSome result (λ x. x.0 ≤ 255) }
{
    let (part, rest) = number_front(255, bytes)?;
    let rest = after_byte(separator, rest)?;
    Some((part as u32, rest))
}

// The port, with which the text ends.
#[tactic(auto, unfolding(crate::specs::Address::port_of))]
fn port(bytes: &[u8]) -> Option<u16>
    ensures { result ≡ port_of bytes.now }
{
    let (port, rest) = number_front(65_535, bytes)?;
    if rest.is_empty() && port != 0 {
        Some(port as u16)
    } else {
        None
    }
}

// What follows this byte at the front.
fn after_byte(byte: u8, bytes: &[u8]) -> Option<&[u8]>
    ensures { option_map (λ x. x.now) result ≡ after_byte byte bytes.now }
{
    match bytes {
        [first, rest @ ..] if *first == byte => Some(rest),
        _ => None,
    }
}
