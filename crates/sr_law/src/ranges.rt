ghost use Rattle.std.specs.Prelude.{◌≡◌, ◌≤◌};
ghost use Rattle.sr_hash.specs.Uses.{is_place_of};
ghost use Rattle.sr_law.specs.Ranges.{vip_of, pipe_of, server_named, if_below, names_own_place, in_range};

use crate::{Line, Setup};
use sr_base::{Key, Place, Shape};
use sr_hash::{bucket, group};

// The virtual address that a line speaks of.
fn vip_of(line: &Line) -> Option<u64>
    ensures { result ≡ vip_of line.now }
{
    match *line {
        Line::Given { vip, .. } => Some(vip as u64),
        Line::Recorded { vip, .. } => Some(vip as u64),
        Line::Hold { vip, .. } => Some(vip as u64),
        Line::Switched { vip, .. } => Some(vip as u64),
        Line::Finished { vip, .. } => Some(vip as u64),
        _ => match line.key() {
            Some(key) => Some(key.vip as u64),
            None => None,
        },
    }
}

// The pipe that a line speaks of.
fn pipe_of(line: &Line) -> Option<u64>
    ensures { result ≡ pipe_of line.now }
{
    match *line {
        Line::Packet { pipe, .. } => Some(pipe as u64),
        Line::Answer { pipe, .. } => Some(pipe as u64),
        _ => None,
    }
}

// The server that a line speaks of.
fn server_named(line: &Line) -> Option<u64>
    ensures { result ≡ server_named line.now }
{
    match *line {
        Line::TakenDown { server, .. } => Some(server as u64),
        _ => match line.choice() {
            Some(choice) => Some(choice.server as u64),
            None => None,
        },
    }
}

// There is no number, or one below this.
fn if_below(limit: u64, number: Option<u64>) -> bool
    ensures { result ≡ if_below limit number }
{
    match number {
        Some(n) => n < limit,
        None => true,
    }
}

// A place of the key.
fn is_place_of(shape: &Shape, key: Key, place: Place) -> bool
    requires buckets { 1 ≤ shape.now.buckets }
    requires rows { 4 ≤ shape.now.full_rows }
    ensures { result ≡ is_place_of shape.now key place }
{
    match place {
        Place::Slot {
            way,
            bucket: at,
            cell,
        } => {
            if way == 1 || way == 2 {
                at == bucket(way, key, shape.buckets) && cell < 4
            } else {
                false
            }
        }
        Place::Row { row } => row / 4 == group(key, shape.full_rows),
    }
}

// A line that names a place names one of its key.
fn names_own_place(shape: &Shape, line: &Line) -> bool
    requires buckets { 1 ≤ shape.now.buckets }
    requires rows { 4 ≤ shape.now.full_rows }
    ensures { result ≡ names_own_place shape.now line.now }
{
    match *line {
        Line::Reserved { key, place, .. } => is_place_of(shape, key, place),
        Line::Placed { key, place, .. } => is_place_of(shape, key, place),
        Line::Cleared { key, place, .. } => is_place_of(shape, key, place),
        _ => true,
    }
}

/// Each number of a line is in its range.
#[tactic(auto, unfolding(crate::specs::Ranges::in_range))]
pub fn in_range(setup: &Setup, line: &Line) -> bool
    requires buckets { 1 ≤ setup.now.shape.buckets }
    requires rows { 4 ≤ setup.now.shape.full_rows }
    ensures { result ≡ in_range setup.now line.now }
{
    if_below(setup.pools.vips() as u64, vip_of(line))
        && if_below(setup.shape.pipes as u64, pipe_of(line))
        && if_below(setup.servers as u64, server_named(line))
        && names_own_place(&setup.shape, line)
}
