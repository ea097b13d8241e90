ghost use Rattle.std.specs.Prelude.{◌≡◌, ◌+◌, ◌≤◌, length};
ghost use Rattle.sr_text.specs.Fields.{address_text, key_text, kind_text, place_text, verdict_text, choice_text};

use crate::line_text::LineText;
use sr_base::{Key, Kind, Place};
use sr_law::{HeldBy, Verdict};

// Puts an IPv4 address, four numbers parted by dots.
#[tactic(auto, unfolding(crate::specs::Fields::address_text))]
fn put_address(ip: u32, text: &mut LineText)
    requires { 23 + length text.old ≤ 200 }
    ensures text { text.new ≡ address_text ip text.old }
    ensures length { length text.new ≤ 23 + length text.old }
{
    text.put_u16((ip % 256) as u16);
    text.byte(b'.');
    text.put_u16((ip / 256 % 256) as u16);
    text.byte(b'.');
    text.put_u16((ip / 65_536 % 256) as u16);
    text.byte(b'.');
    text.put_u16((ip / 16_777_216) as u16);
}

/// Puts a key: virtual address, client address, port.
#[tactic(auto, unfolding(crate::specs::Fields::key_text))]
pub fn put_key(key: &Key, text: &mut LineText)
    requires { 35 + length text.old ≤ 200 }
    ensures text { text.new ≡ key_text key.now text.old }
    ensures length { length text.new ≤ 35 + length text.old }
{
    text.put_u16(key.port);
    text.byte(b':');
    put_address(key.ip, text);
    text.byte(b'/');
    text.put_u16(key.vip as u16);
}

/// Puts what a packet is to its connection.
pub(crate) fn put_kind(kind: Kind, text: &mut LineText)
    requires { 4 + length text.old ≤ 200 }
    ensures text { text.new ≡ kind_text kind text.old }
    ensures length { length text.new ≤ 4 + length text.old }
{
    match kind {
        Kind::Opener => text.word(b"open"),
        Kind::Carry => text.word(b"data"),
        Kind::Ending => text.word(b"end"),
    }
}

/// Puts a place of the tables.
pub(crate) fn put_place(place: &Place, text: &mut LineText)
    requires { 23 + length text.old ≤ 200 }
    ensures text { text.new ≡ place_text place.now text.old }
    ensures length { length text.new ≤ 23 + length text.old }
{
    match *place {
        Place::Slot { way, bucket, cell } => {
            text.put_u16(cell as u16);
            text.byte(b'c');
            text.put_u32(bucket);
            text.byte(b'b');
            text.put_u16(way as u16);
            text.byte(b'w');
        }
        Place::Row { row } => {
            text.put_u32(row);
            text.byte(b'f');
        }
    }
}

// Puts a server, a version and a pool.
fn put_choice(server: u32, version: u8, pool: u64, text: &mut LineText)
    requires { 37 + length text.old ≤ 200 }
    ensures text { text.new ≡ choice_text server version pool text.old }
    ensures length { length text.new ≤ 37 + length text.old }
{
    text.put_u64(pool);
    text.byte(b' ');
    text.put_u16(version as u16);
    text.byte(b' ');
    text.put_u32(server);
}

/// Puts what became of a packet.
#[tactic(auto, unfolding(crate::specs::Fields::verdict_text))]
pub(crate) fn put_verdict(verdict: &Verdict, text: &mut LineText)
    requires { 42 + length text.old ≤ 200 }
    ensures text { text.new ≡ verdict_text verdict.now text.old }
    ensures length { length text.new ≤ 42 + length text.old }
{
    match *verdict {
        Verdict::To {
            server,
            version,
            pool,
        } => {
            put_choice(server, version.number(), pool, text);
            text.word(b"to ");
        }
        Verdict::Held(HeldBy::Clash) => text.word(b"held clash"),
        Verdict::Held(HeldBy::Hold) => text.word(b"held hold"),
        Verdict::Held(HeldBy::Transit) => text.word(b"held transit"),
        Verdict::Down {
            server,
            version,
            pool,
        } => {
            put_choice(server, version.number(), pool, text);
            text.word(b"down ");
        }
        Verdict::Full => text.word(b"full"),
        Verdict::NoPlace => text.word(b"noplace"),
    }
}
