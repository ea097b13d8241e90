//! The places of a key: the slots of its two buckets, and the rows of its group.

ghost use Rattle.std.specs.Prelude.{◌≡◌, ◌≤◌};
ghost use Rattle.sr_shadow.specs.Plan.{key_rows, key_slots, other_way, slots_in, slots_of};

use sr_base::{Key, Layout, Place, layout_ranges};
use sr_hash::{bucket, group};

// The four slots of a bucket.
fn slots_in(way: u8, bucket: u32) -> [Place; 4]
    ensures { result ≡ slots_in way bucket }
{
    [
        Place::Slot {
            way,
            bucket,
            cell: 0,
        },
        Place::Slot {
            way,
            bucket,
            cell: 1,
        },
        Place::Slot {
            way,
            bucket,
            cell: 2,
        },
        Place::Slot {
            way,
            bucket,
            cell: 3,
        },
    ]
}

/// The four slots of the key's bucket of a way, 1 or 2.
pub fn slots_of(layout: &Layout, way: u8, key: Key) -> [Place; 4]
    requires way { (1 ≤ way) × (way ≤ 2) }
    ensures { result ≡ slots_of layout.now.shape way key }
{
    layout_ranges(layout);
    slots_in(way, bucket(way, key, layout.shape().buckets))
}

/// The slots of both its buckets, way 1 first.
pub fn key_slots(layout: &Layout, key: Key) -> [Place; 8]
    ensures { result ≡ key_slots layout.now.shape key }
{
    let [a, b, c, d] = slots_of(layout, 1, key);
    let [e, f, g, h] = slots_of(layout, 2, key);
    [a, b, c, d, e, f, g, h]
}

/// Way 1 and way 2 are each other's other way.
pub fn other_way(way: u8) -> u8
    ensures value { result ≡ other_way way }
    ensures way { (1 ≤ result) × (result ≤ 2) }
{
    if way == 1 { 2 } else { 1 }
}

/// The four rows of the key's group.
pub fn key_rows(layout: &Layout, key: Key) -> [u32; 4]
    ensures { result ≡ key_rows layout.now.shape key }
{
    layout_ranges(layout);
    let first = 4 * group(key, layout.shape().full_rows);
    [first, first + 1, first + 2, first + 3]
}
