ghost use Rattle.std.specs.Prelude.{◌≡◌, IfOk, IfSome, map, option_map, string_bytes};
ghost use Rattle.std.specs.List.{list_any};
ghost use Rattle.sr_run.specs.Command.{IsInRange, begins_with_dash, command_of, command_of_plain, command_of_three, command_of_two, demo_of, make_of, one_of, seen, steps_of};
ghost use Rattle.sr_run.specs.Parting.{texts};

use crate::numbers::{count_of_packets, number_of};
use crate::parting::part;
use crate::servers::count_of_servers;
use sr_script::address;
use std::alloc::{AllocError, Global};

/// What the words after the program's name ask for.
#[derive(Clone, Copy, Debug, PartialEq, Eq)]
pub(crate) enum Command<'a> {
    /// A capture and one pool: `one VIP SERVERS`.
    One {
        /// The virtual address: IPv4 address and TCP port.
        vip: (u32, u16),
        /// How many servers share it, 1 to 255. They are numbered from 0 in the order of the word.
        servers: u8,
    },
    /// A capture from a number: `make N PACKETS`.
    Make {
        /// The number.
        number: u64,
        /// How many packets the capture has, 1 to 4,194,304.
        packets: u32,
    },
    /// A script and a capture: `replay SCRIPT`.
    Replay {
        /// The name of the script.
        script: &'a str,
    },
    /// A demonstration: `demo N`.
    Demo {
        /// The number that its capture is made from.
        number: u64,
    },
    /// A log and a script: `audit SCRIPT`.
    Audit {
        /// The name of the script.
        script: &'a str,
    },
    /// A script, a capture and a seed: `steps SCRIPT SEED`.
    Steps {
        /// The name of the script.
        script: &'a str,
        /// What the picks begin with.
        seed: u64,
    },
}

/// The command that the words are; None where they are none. Words that are one are parted by the command-line library, and read from its parts.
pub(crate) fn read_command<'a>(
    alloc: Global,
    words: &'a [String],
) -> Result<Option<Command<'a>>, AllocError>
    ensures value { IfOk result (λ c. option_map seen c ≡ command_of (map string_bytes words.entry.now)) }
    ensures some { IfOk result (λ c. IfSome c (λ x. IsInRange (seen x))) }
{
    let texts = texts_of(alloc, words)?;
    match command_of(alloc, &texts)? {
        None => Ok(None),
        Some(_) => command_of(alloc, &part(alloc, words)?),
    }
}

// The texts of words.
fn texts_of<'a>(alloc: Global, words: &'a [String]) -> Result<Vec<&'a str>, AllocError>
    ensures { IfOk result (λ known. texts known.items ≡ map string_bytes words.entry.now) }
{
    let mut known = Vec::new(alloc);
    for word in words {
        known.push(word.as_str())?;
    }
    Ok(known)
}

// The command that these words are.
#[tactic(auto, unfolding(crate::specs::Command::command_of))]
fn command_of<'a>(alloc: Global, words: &[&'a str]) -> Result<Option<Command<'a>>, AllocError>
    ensures value { IfOk result (λ c. option_map seen c ≡ command_of (texts words.now)) }
    ensures some { IfOk result (λ c. IfSome c (λ x. IsInRange (seen x))) }
{
    if any_begins_with_dash(words) {
        Ok(None)
    } else {
        command_of_plain(alloc, words)
    }
}

// Whether any of these words begins with `-`.
fn any_begins_with_dash(words: &[&str]) -> bool
    ensures { result ≡ list_any begins_with_dash (texts words.now) }
{
    for word in words {
        if begins_with_dash(*word) {
            return true;
        }
    }
    false
}

// Whether a word begins with `-`.
fn begins_with_dash(word: &str) -> bool
    ensures { result ≡ begins_with_dash word.now }
{
    match word.as_bytes() {
        [] => false,
        [byte, ..] => *byte == b'-',
    }
}

// The command that these words are, none of which begins with `-`.
fn command_of_plain<'a>(alloc: Global, words: &[&'a str]) -> Result<Option<Command<'a>>, AllocError>
    ensures value { IfOk result (λ c. option_map seen c ≡ command_of_plain (texts words.now)) }
    ensures some { IfOk result (λ c. IfSome c (λ x. IsInRange (seen x))) }
{
    match words {
        [name, script] => Ok(command_of_two(*name, *script)),
        [name, first, second] => command_of_three(alloc, *name, *first, *second),
        _ => Ok(None),
    }
}

// The command of this name and one more word.
fn command_of_two<'a>(name: &str, script: &'a str) -> Option<Command<'a>>
    ensures value { option_map seen result ≡ command_of_two name.now script.now }
    ensures some { IfSome result (λ x. IsInRange (seen x)) }
{
    if name == "replay" {
        Some(Command::Replay { script })
    } else if name == "audit" {
        Some(Command::Audit { script })
    } else if name == "demo" {
        read_demo(script)
    } else {
        None
    }
}

// The command of this name and two more words.
fn command_of_three<'a>(
    alloc: Global,
    name: &str,
    first: &'a str,
    second: &str,
) -> Result<Option<Command<'a>>, AllocError>
    ensures value { IfOk result (λ c. option_map seen c ≡ command_of_three name.now first.now second.now) }
    ensures some { IfOk result (λ c. IfSome c (λ x. IsInRange (seen x))) }
{
    if name == "one" {
        read_one(alloc, first, second)
    } else if name == "make" {
        Ok(read_make(first, second))
    } else if name == "steps" {
        Ok(read_steps(first, second))
    } else {
        Ok(None)
    }
}

// The command `one` with these words.
fn read_one<'a>(alloc: Global, vip: &str, servers: &str) -> Result<Option<Command<'a>>, AllocError>
    ensures value { IfOk result (λ c. option_map seen c ≡ one_of vip.now servers.now) }
    ensures some { IfOk result (λ c. IfSome c (λ x. IsInRange (seen x))) }
{
    let Some(vip) = address(vip) else {
        return Ok(None);
    };
    match count_of_servers(alloc, servers)? {
        None => Ok(None),
        Some(servers) => Ok(Some(Command::One { vip, servers })),
    }
}

// The command `make` with these words.
fn read_make<'a>(number: &str, packets: &str) -> Option<Command<'a>>
    ensures value { option_map seen result ≡ make_of number.now packets.now }
    ensures some { IfSome result (λ x. IsInRange (seen x)) }
{
    let number = number_of(number)?;
    let packets = count_of_packets(packets)?;
    Some(Command::Make { number, packets })
}

// The command `demo` with this word.
fn read_demo<'a>(number: &str) -> Option<Command<'a>>
    ensures value { option_map seen result ≡ demo_of number.now }
    ensures some { IfSome result (λ x. IsInRange (seen x)) }
{
    let number = number_of(number)?;
    Some(Command::Demo { number })
}

// The command `steps` with these words.
fn read_steps<'a>(script: &'a str, seed: &str) -> Option<Command<'a>>
    ensures value { option_map seen result ≡ steps_of script.now seed.now }
    ensures some { IfSome result (λ x. IsInRange (seen x)) }
{
    let seed = number_of(seed)?;
    Some(Command::Steps { script, seed })
}
