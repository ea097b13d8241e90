//! A machine of a script's text, and the judgement of its lines.

use sr_audit::check;
use sr_base::{Key, Kind, Layout, Packet};
use sr_core::{Controlled, Core};
use sr_law::{Line, Pools, Setup};
use sr_machine::{Actor, Event, Stepped, Turn};
use sr_script::{Script, parse};
use sr_scripted::{config_of, in_order};
use std::alloc::Global;
use std::test::Fail;

/// The script of this text.
pub(crate) fn script(alloc: Global, text: &str) -> Result<Script, Fail> {
    match parse(alloc, text.as_bytes()) {
        Ok(script) => Ok(script),
        Err(_) => Err(Fail::from("script")),
    }
}

/// The machine of a script's text, at the beginning.
pub(crate) fn machine(alloc: Global, text: &str) -> Result<Core, Fail> {
    match parse(alloc, text.as_bytes()) {
        Ok(script) => Ok(Core::new(alloc, config_of(alloc, script)?)?),
        Err(_) => Err(Fail::from("script")),
    }
}

/// A packet of the client of this number.
pub(crate) fn packet(number: u32, vip: u8, client: u8, kind: Kind) -> Packet {
    Packet {
        number,
        key: Key {
            vip: vip % 16,
            ip: 0x0a00_0000 + client as u32,
            port: 4000,
        },
        kind,
    }
}

/// Makes the next step of a pipe. False where it has none.
pub(crate) fn steps(core: &mut Core, pipe: u8) -> bool {
    let event = Event::Step {
        actor: Actor::Pipe(pipe),
    };
    match core.step(event) {
        Stepped::Made => true,
        _ => false,
    }
}

/// Makes steps of a pipe until its packet is out.
pub(crate) fn finishes(core: &mut Core, pipe: u8) {
    for _step in 0..30 {
        if !steps(core, pipe) {
            return;
        }
    }
}

/// Makes turns of the controller until one answers anything else than that it did something, and tells what. None where none does within so many steps.
pub(crate) fn answers(core: &mut Core) -> Option<Turn> {
    for _step in 0..20_000 {
        match core.control() {
            Controlled::Made => {}
            Controlled::Ended(Turn::Did(_)) => {}
            Controlled::Ended(turn) => return Some(turn),
            _ => return None,
        }
    }
    None
}

/// What lines are judged for: a script, and these packets.
pub(crate) fn setup(alloc: Global, script: &Script, packets: &[Packet]) -> Result<Setup, Fail> {
    let Ok(servers) = u32::try_from(script.servers.len()) else {
        return Err(Fail::from("servers"));
    };
    Ok(Setup {
        shape: script.shape,
        servers,
        pools: Pools::new(alloc, &script.first, &script.changes)?,
        packets: packets.to_vec(alloc)?,
    })
}

// Whether the list is lawful for the setup.
fn is_lawful(alloc: Global, setup: &Setup, lines: &[Line]) -> bool {
    let vips = setup.pools.vips();
    vips <= 16
        && Layout::new(setup.shape, vips as u8, setup.servers).is_ok()
        && check(alloc, setup, lines).is_ok()
}

/// Whether the machine's lines are lawful for the script of this text and these packets.
pub(crate) fn judged(
    alloc: Global,
    text: &str,
    packets: &[Packet],
    core: &Core,
) -> Result<bool, Fail> {
    let lines = in_order(core.all_lines(alloc)?)?;
    let setup = setup(alloc, &script(alloc, text)?, packets)?;
    Ok(is_lawful(alloc, &setup, lines.as_slice()))
}
