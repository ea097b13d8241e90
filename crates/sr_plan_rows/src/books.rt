ghost use Rattle.std.specs.Prelude.{◌≤◌};

use crate::scene::Scene;
use sr_base::{Key, Layout, Shape, layout_ranges};
use sr_hash::{bucket, group};
use sr_plan::Plan;
use std::alloc::{AllocError, Global};

// So many buckets of each way, digests of so many bits, four rows.
pub(crate) fn layout_of(buckets: u32, digest_bits: u8) -> Option<Layout> {
    layout_with(buckets, digest_bits, 4)
}

// And so many rows.
pub(crate) fn layout_with(buckets: u32, digest_bits: u8, full_rows: u32) -> Option<Layout> {
    let shape = Shape {
        pipes: 1,
        buckets,
        digest_bits,
        versions: 64,
        pool_max: 1,
        full_rows,
        filter_bits: 1,
        ring: 8,
        window_ms: 10,
        idle_ms: 1,
        lives: 1,
    };
    Layout::new(shape, 1, 2).ok()
}

// The client 10.0.0.`last` at this port.
pub(crate) fn client(last: u8, port: u16) -> Key {
    Key {
        vip: 0,
        ip: 0x0a00_0000 + last as u32,
        port,
    }
}

pub(crate) fn bucket_of(layout: &Layout, way: u8, key: Key) -> u32
    requires { (1 ≤ way) × (way ≤ 2) }
{
    layout_ranges(layout);
    bucket(way, key, layout.shape().buckets)
}

// A client in this group of rows.
pub(crate) fn client_in(layout: &Layout, wanted: u32) -> Option<Key> {
    layout_ranges(layout);
    for port in 4000..4040 {
        let key = client(9, port);
        if group(key, layout.shape().full_rows) == wanted {
            return Some(key);
        }
    }
    None
}

// Which kind of plan it is.
fn kind(plan: Plan) -> u8 {
    match plan {
        Plan::Slot { .. } => 1,
        Plan::Move { .. } => 2,
        Plan::FullKey { .. } => 4,
        Plan::NoRoom => 8,
    }
}

// Clients whose addresses and ports are spread.
fn nth_client(n: u16) -> Key {
    client((9 + n % 40 * 5) as u8, 1024 + n % 60 * 977)
}

// The kind of the key's plan. None where the bodies differ.
fn agreed(scene: &Scene, alloc: Global, key: Key) -> Result<Option<u8>, AllocError> {
    match scene.plan(key) {
        None => Ok(Some(0)),
        Some(plan) => {
            if scene.plan_plain(alloc, key)? == Some(plan) {
                Ok(Some(kind(plan)))
            } else {
                Ok(None)
            }
        }
    }
}

// One key comes, and is placed as planned or left pending; now and then another is retired.
fn come(scene: &mut Scene, alloc: Global, n: u16) -> Result<(), AllocError> {
    if n % 7 == 3 {
        scene.take(alloc, nth_client(n))?;
    } else {
        scene.place(alloc, nth_client(n))?;
    }
    if n % 4 == 3 {
        scene.retire(nth_client(n / 2));
    }
    Ok(())
}

// Keys come to a book; both bodies give the same plan each time. The answer is the kinds of plan that came, as bits, or None where the bodies differ.
fn kinds_in(scene: &mut Scene, alloc: Global, clients: u16) -> Result<Option<u8>, AllocError> {
    let mut kinds = 0;
    for n in 0..clients {
        match agreed(scene, alloc, nth_client(n))? {
            Some(kind) => kinds |= kind,
            None => return Ok(None),
        }
        come(scene, alloc, n)?;
    }
    Ok(Some(kinds))
}

/// The same of an empty book.
pub(crate) fn kinds(alloc: Global, layout: Layout, clients: u16) -> Result<Option<u8>, AllocError> {
    let mut scene = Scene::new(alloc, layout)?;
    kinds_in(&mut scene, alloc, clients)
}
