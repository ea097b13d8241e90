ghost use Rattle.std.specs.Prelude.{◌≡◌, ◌≢◌, ℕ, ◌+◌, ◌<◌, ◌≤◌, List, length, take, drop, true, Some, None, Err, IsErr, IfOk, IfErr, IfSome};
ghost use Rattle.sr_io.specs.Faults.{Counts};
ghost use Rattle.sr_io.specs.Window.{Pending};
ghost use Rattle.sr_pcapng.specs.Options.{option_of, option_sized, walk, kept, FitsIn};
ghost use Rattle.sr_pcapng.specs.Reading.{Keeps, Steps, Walks};
ghost use Rattle.sr_pcapng.specs.declared.stop.Stop.TheVariants.{ReadFault};

use crate::ahead::Ahead;
use crate::endian::Endian;
use crate::option_head::OptionHead;
use crate::section::padded;
use crate::stop::Stop;
use sr_io::Source;

// The code of an option that gives a resolution.
const RESOLUTION: u16 = 9;

/// Walks over the options of an interface description, which has so many bytes for them: the resolution that they give, and how many bytes
/// of the body follow the last of them.
pub fn walk<S: Source>(
    source: &mut S,
    ahead: &mut Ahead,
    endian: Endian,
    offset: u64,
    size: u64,
) -> Result<(Option<u8>, u64), Stop>
    ensures walks { (xs : List ℕ) → Pending ahead.old (S.known source.old).left xs →
        Walks result (walk size endian offset size None xs) (Pending ahead.new (S.known source.new).left) }
    ensures faults { Counts (result ≡ Err ReadFault) (S.known source.old).faults (S.known source.new).faults }
    ensures more { IfOk result (λ r. r.1 ≤ size) }
{
    let mut room = size;
    let mut resolution = None;
    while room > 0 {
        match step(source, ahead, endian, offset, room, resolution)? {
            Some((size, now)) => {
                room -= 4 + size;
                resolution = now;
            }
            None => return Ok((resolution, room.saturating_sub(4))),
        }
    }
    Ok((resolution, 0))
}

// Walks over one option: how many bytes its value has, and the resolution after it; or none where no option follows.
fn step<S: Source>(
    source: &mut S,
    ahead: &mut Ahead,
    endian: Endian,
    offset: u64,
    room: u64,
    resolution: Option<u8>,
) -> Result<Option<(u64, Option<u8>)>, Stop>
    ensures steps { (xs : List ℕ) → Pending ahead.old (S.known source.old).left xs →
        Steps result (option_of endian offset room (take 4 xs)) resolution (drop 4 xs) (Pending ahead.new (S.known source.new).left) }
    ensures within { IfOk result (λ r. IfSome r (λ s. 4 + s.0 ≤ room)) }
    ensures faults { Counts (result ≡ Err ReadFault) (S.known source.old).faults (S.known source.new).faults }
{
    let mut head = [0; 4];
    let n = ahead.fill(source, &mut head, 4)?;
    match option_head(endian, offset, room, &head[..n])? {
        OptionHead::Last => Ok(None),
        OptionHead::Value { size, tells } => Ok(Some((
            size,
            read_value(source, ahead, size, tells, resolution)?,
        ))),
    }
}

// Walks over the value of an option: the resolution after it.
fn read_value<S: Source>(
    source: &mut S,
    ahead: &mut Ahead,
    size: u64,
    tells: bool,
    resolution: Option<u8>,
) -> Result<Option<u8>, Stop>
    requires { tells ≡ true → 4 ≤ size }
    ensures keeps { (xs : List ℕ) → Pending ahead.old (S.known source.old).left xs →
        Keeps result (kept resolution tells xs) (drop size xs) (Pending ahead.new (S.known source.new).left) }
    ensures error { IfErr result (λ why. why ≡ ReadFault) }
    ensures faults { Counts (IsErr result) (S.known source.old).faults (S.known source.new).faults }
{
    if resolution.is_some() || !tells {
        ahead.skip(source, size)?;
        return Ok(resolution);
    }
    let mut first = [0; 4];
    let n = ahead.fill(source, &mut first, 4)?;
    ahead.skip(source, size - 4)?;
    Ok(first[..n].first().copied())
}

// What the four bytes at an option's front say, or all that there are.
#[tactic(auto, unfolding(crate::specs::Options::option_of))]
fn option_head(endian: Endian, offset: u64, room: u64, bytes: &[u8]) -> Result<OptionHead, Stop>
    ensures option { result ≡ option_of endian offset room bytes.now }
    ensures judged { result ≢ Err ReadFault }
    ensures fits { IfOk result (λ h. FitsIn h room) }
{
    if bytes.len() < 4 {
        return Err(Stop::Truncated { offset });
    }
    option_sized(
        offset,
        room,
        endian.read_u16(bytes),
        endian.read_u16(&bytes[2..]),
    )
}

// What an option of this code is, with so many bytes of a value.
#[tactic(auto, unfolding(crate::specs::Options::option_sized))]
fn option_sized(offset: u64, room: u64, code: u16, size: u16) -> Result<OptionHead, Stop>
    ensures option { result ≡ option_sized offset room code size }
    ensures judged { result ≢ Err ReadFault }
    ensures fits { IfOk result (λ h. FitsIn h room) }
{
    if code == 0 {
        return Ok(OptionHead::Last);
    }
    let padded = padded(size as u32);
    if 4 + padded > room {
        return Err(Stop::Block { offset });
    }
    Ok(OptionHead::Value {
        size: padded,
        tells: code == RESOLUTION && size > 0,
    })
}
