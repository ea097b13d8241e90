ghost use Rattle.std.specs.Prelude.{◌≡◌, ◌+◌, ◌≤◌, ◌∷◌, ◌++◌, codes, length};
ghost use Rattle.std.specs.Fmt.{decimal};
ghost use Rattle.sr_law.specs.declared.line.Line.TheVariants.{Answer, Given, Switched, Swept, Retired};
ghost use Rattle.sr_text.specs.Fields.{field, key_text, kind_text, place_text, verdict_text};
ghost use Rattle.sr_text.specs.LineText.{line_text, skip_text, skip_word, ended};

use crate::fields::{put_key, put_kind, put_place, put_verdict};
use crate::line_text::LineText;
use sr_base::{Key, Kind, Place, Version};
use sr_frame::Skip;
use sr_law::{Line, Verdict};

// Puts a number and the space behind it.
fn put_u64_field(n: u64, text: &mut LineText)
    requires { 21 + length text.old ≤ 200 }
    ensures text { text.new ≡ field n text.old }
    ensures length { length text.new ≤ 21 + length text.old }
{
    text.byte(b' ');
    text.put_u64(n);
}

// Puts a number below 2^16 and the space behind it.
fn put_u16_field(n: u16, text: &mut LineText)
    requires { 6 + length text.old ≤ 200 }
    ensures text { text.new ≡ field n text.old }
    ensures length { length text.new ≤ 6 + length text.old }
{
    text.byte(b' ');
    text.put_u16(n);
}

// Puts a number below 2^32 and the space behind it.
fn put_u32_field(n: u32, text: &mut LineText)
    requires { 11 + length text.old ≤ 200 }
    ensures text { text.new ≡ field n text.old }
    ensures length { length text.new ≤ 11 + length text.old }
{
    text.byte(b' ');
    text.put_u32(n);
}

// Puts the end of a packet's line, from its key on.
fn put_packet_end(key: &Key, kind: Kind, verdict: &Verdict, text: &mut LineText)
    requires { 83 + length text.old ≤ 200 }
    ensures text { text.new ≡ key_text key.now (32 ∷ kind_text kind (32 ∷ verdict_text verdict.now text.old)) }
    ensures length { length text.new ≤ 83 + length text.old }
{
    put_verdict(verdict, text);
    text.byte(b' ');
    put_kind(kind, text);
    text.byte(b' ');
    put_key(key, text);
}

// Puts the front of a packet's line, up to its key.
fn put_packet_start(number: u32, entered: u64, out: u64, pipe: u8, text: &mut LineText)
    requires { length text.old ≤ 84 }
    ensures { text.new ≡ codes "packet " ++ field number (field entered (field out (field pipe text.old))) }
{
    put_u16_field(pipe as u16, text);
    put_u64_field(out, text);
    put_u64_field(entered, text);
    put_u32_field(number, text);
    text.word(b"packet ");
}

// Puts an answer's line.
#[tactic(auto, unfolding(crate::specs::LineText::line_text))]
fn put_answer(out: u64, pipe: u8, nth: u32, key: &Key, verdict: &Verdict, text: &mut LineText)
    requires { text.old ≡ ended }
    ensures { text.new ≡ line_text (Answer out pipe nth key.now verdict.now) }
{
    put_verdict(verdict, text);
    text.byte(b' ');
    put_key(key, text);
    put_u32_field(nth, text);
    put_u16_field(pipe as u16, text);
    put_u64_field(out, text);
    text.word(b"answer ");
}

// Puts the line of a version that names a pool.
#[tactic(auto, unfolding(crate::specs::LineText::line_text))]
fn put_given(out: u64, vip: u8, version: Version, pool: u64, text: &mut LineText)
    requires { text.old ≡ ended }
    ensures { text.new ≡ line_text (Given out vip version pool) }
{
    text.put_u64(pool);
    put_u16_field(version.number() as u16, text);
    put_u16_field(vip as u16, text);
    put_u64_field(out, text);
    text.word(b"give ");
}

// Puts the line of a switch.
#[tactic(auto, unfolding(crate::specs::LineText::line_text))]
fn put_switched(out: u64, vip: u8, pool: u64, text: &mut LineText)
    requires { text.old ≡ ended }
    ensures { text.new ≡ line_text (Switched out vip pool) }
{
    text.put_u64(pool);
    put_u16_field(vip as u16, text);
    put_u64_field(out, text);
    text.word(b"switch ");
}

// Puts the line of a sweep.
#[tactic(auto, unfolding(crate::specs::LineText::line_text))]
fn put_swept(number: u64, from: u64, to: u64, at_ms: u64, text: &mut LineText)
    requires { text.old ≡ ended }
    ensures { text.new ≡ line_text (Swept number from to at_ms) }
{
    text.put_u64(at_ms);
    put_u64_field(to, text);
    put_u64_field(from, text);
    put_u64_field(number, text);
    text.word(b"sweep ");
}

// Puts the line of a connection that is over.
#[tactic(auto, unfolding(crate::specs::LineText::line_text))]
fn put_retired(out: u64, key: &Key, text: &mut LineText)
    requires { text.old ≡ ended }
    ensures { text.new ≡ line_text (Retired out key.now) }
{
    put_key(key, text);
    put_u64_field(out, text);
    text.word(b"retire ");
}

// Puts a line of a name, a tick, and a virtual address.
fn put_phase(name: &[u8], out: u64, vip: u8, text: &mut LineText)
    requires { (length name.now ≤ 10) × (length text.old ≤ 1) }
    ensures { text.new ≡ name.now ++ field out (decimal vip ++ text.old) }
{
    text.put_u16(vip as u16);
    put_u64_field(out, text);
    text.word(name);
}

// Puts a line of a name, a tick, a key and a place.
fn put_entry(name: &[u8], out: u64, key: &Key, place: &Place, text: &mut LineText)
    requires { (length name.now ≤ 10) × (length text.old ≤ 1) }
    ensures { text.new ≡ name.now ++ field out (key_text key.now (32 ∷ place_text place.now text.old)) }
{
    put_place(place, text);
    text.byte(b' ');
    put_key(key, text);
    put_u64_field(out, text);
    text.word(name);
}

// Puts a line of a name, a tick and a number.
fn put_numbered(name: &[u8], out: u64, n: u32, text: &mut LineText)
    requires { (length name.now ≤ 10) × (length text.old ≤ 1) }
    ensures { text.new ≡ name.now ++ field out (decimal n ++ text.old) }
{
    text.put_u32(n);
    put_u64_field(out, text);
    text.word(name);
}

/// Puts a line before its line feed.
#[tactic(auto, unfolding(crate::specs::LineText::line_text))]
pub(crate) fn put_line(line: &Line, text: &mut LineText)
    requires { text.old ≡ ended }
    ensures { text.new ≡ line_text line.now }
{
    match *line {
        Line::Packet {
            number,
            entered,
            out,
            pipe,
            key,
            kind,
            verdict,
        } => {
            put_packet_end(&key, kind, &verdict, text);
            put_packet_start(number, entered, out, pipe, text);
        }
        Line::Answer {
            out,
            pipe,
            nth,
            key,
            verdict,
        } => put_answer(out, pipe, nth, &key, &verdict, text),
        Line::Given {
            out,
            vip,
            version,
            pool,
        } => put_given(out, vip, version, pool, text),
        Line::Recorded { out, vip } => put_phase(b"record ", out, vip, text),
        Line::Hold { out, vip } => put_phase(b"hold ", out, vip, text),
        Line::Switched { out, vip, pool } => put_switched(out, vip, pool, text),
        Line::Finished { out, vip } => put_phase(b"finish ", out, vip, text),
        Line::TakenDown { out, server } => put_numbered(b"down ", out, server, text),
        Line::Reserved { out, key, place } => put_entry(b"reserve ", out, &key, &place, text),
        Line::Placed { out, key, place } => put_entry(b"place ", out, &key, &place, text),
        Line::Cleared { out, key, place } => put_entry(b"clear ", out, &key, &place, text),
        Line::Swept {
            number,
            from,
            to,
            at_ms,
        } => put_swept(number, from, to, at_ms, text),
        Line::Retired { out, key } => put_retired(out, &key, text),
        Line::Refused { out, change } => put_numbered(b"refuse ", out, change, text),
    }
}

// Puts why a record was skipped.
fn put_skip_word(why: Skip, text: &mut LineText)
    requires { 10 + length text.old ≤ 200 }
    ensures text { text.new ≡ skip_word why ++ text.old }
    ensures length { length text.new ≤ 10 + length text.old }
{
    match why {
        Skip::NotIpv4 => text.word(b"notipv4"),
        Skip::NotTcp => text.word(b"nottcp"),
        Skip::Fragment => text.word(b"fragment"),
        Skip::Short => text.word(b"short"),
        Skip::NotVip => text.word(b"notvip"),
    }
}

/// Puts the line of a skipped record before its line feed.
#[tactic(auto, unfolding(crate::specs::LineText::skip_text))]
pub(crate) fn put_skip(number: u32, why: Skip, text: &mut LineText)
    requires { text.old ≡ ended }
    ensures { text.new ≡ skip_text (number, why) }
{
    put_skip_word(why, text);
    put_u32_field(number, text);
    text.word(b"skip ");
}
