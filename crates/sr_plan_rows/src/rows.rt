//! The worked rows of the plan, and both bodies on many books.
use crate::books::{bucket_of, client, client_in, kinds, layout_of, layout_with};
use crate::ledgers::last_plan;
use crate::scene::Scene;
use sr_base::{Key, Layout, Place};
use sr_plan::Plan;
use std::alloc::{AllocError, Global};
use std::test::Fail;

// The first cell of a bucket.
fn cell_of(way: u8, bucket: u32) -> Place {
    Place::Slot {
        way,
        bucket,
        cell: 0,
    }
}

// The plan of the last client once those before it have come: so many rows are filled, after a slot. Each comes to where it is put.
fn plan_after(scene: &mut Scene, alloc: Global, rows: u32) -> Result<Option<Plan>, AllocError> {
    scene.take(alloc, client(9, 4000))?;
    scene.settle(client(9, 4000), cell_of(1, 0));
    for row in 0..rows.min(4) {
        let key = client(10 + row as u8, 4000);
        scene.take(alloc, key)?;
        scene.settle(key, Place::Row { row });
    }
    Ok(scene.plan(client(14, 4000)))
}

fn plan_of(alloc: Global, layout: Layout, rows: u32) -> Result<Option<Plan>, AllocError> {
    let mut scene = Scene::new(alloc, layout)?;
    plan_after(&mut scene, alloc, rows)
}

fn first_plan_of(alloc: Global, layout: Layout) -> Result<Option<Plan>, AllocError> {
    let scene = Scene::new(alloc, layout)?;
    Ok(scene.plan(client(9, 4000)))
}

// One bucket of each way and no digest bits: all keys clash.
#[test]
fn a_slot_then_rows_then_no_room(rt: HostRuntime) -> Result<(), Fail> {
    let alloc = rt.alloc();
    let layout = layout_of(1, 0).expect(&rt, "a layout");
    let place = cell_of(1, 0);
    assert_eq!(rt; first_plan_of(alloc, layout)?, Some(Plan::Slot { place }));
    for row in 0..4u32 {
        assert_eq!(rt;
            plan_of(alloc, layout, row)?,
            Some(Plan::FullKey { row }),
            "row {row}"
        );
    }
    assert_eq!(rt; plan_of(alloc, layout, 4)?, Some(Plan::NoRoom));
    Ok(())
}

// The plan of the second key, beside the first one in its slot.
fn plan_beside(scene: &mut Scene, alloc: Global) -> Result<Option<Plan>, AllocError> {
    scene.place(alloc, client(9, 4000))?;
    Ok(scene.plan(client(14, 1024)))
}

fn plan_beside_of(alloc: Global, layout: Layout) -> Result<Option<Plan>, AllocError> {
    let mut scene = Scene::new(alloc, layout)?;
    plan_beside(&mut scene, alloc)
}

// Two buckets of each way: a key whose bucket of way 1 is A's and whose bucket of way 2 isn't.
#[test]
fn a_move(rt: HostRuntime) -> Result<(), Fail> {
    let layout = layout_of(2, 0).expect(&rt, "a layout");
    let a = client(9, 4000);
    let b = client(14, 1024);
    let y = bucket_of(&layout, 1, a);
    assert_eq!(rt; bucket_of(&layout, 1, b), y);
    assert!(rt; bucket_of(&layout, 2, b) != bucket_of(&layout, 2, a));
    let planned = Plan::Move {
        key: a,
        from: cell_of(1, y),
        to: cell_of(2, bucket_of(&layout, 2, a)),
        then: cell_of(2, bucket_of(&layout, 2, b)),
    };
    assert_eq!(rt; plan_beside_of(rt.alloc(), layout)?, Some(planned));
    Ok(())
}

// The row has a client.
fn fill_row(scene: &mut Scene, alloc: Global, row: u32) -> Result<(), AllocError> {
    let key = client(10 + row.min(7) as u8, 4000);
    scene.take(alloc, key)?;
    scene.settle(key, Place::Row { row });
    Ok(())
}

// Rows 4 to 7 are filled, and two keys come. The second's plan, before the first has settled in row 0, or once it has.
fn plan_around(
    scene: &mut Scene,
    alloc: Global,
    first: Key,
    second: Key,
    settled: bool,
) -> Result<Option<Plan>, AllocError> {
    for row in 4..8 {
        fill_row(scene, alloc, row)?;
    }
    scene.take(alloc, first)?;
    scene.take(alloc, second)?;
    if settled {
        scene.settle(first, Place::Row { row: 0 });
    }
    Ok(scene.plan(second))
}

fn plan_around_of(
    alloc: Global,
    layout: Layout,
    first: Key,
    second: Key,
    settled: bool,
) -> Result<Option<Plan>, AllocError> {
    let mut scene = Scene::new(alloc, layout)?;
    plan_around(&mut scene, alloc, first, second, settled)
}

// All keys clash, and there are two groups of rows: a key that settles in a row makes room for one whose rows are full.
#[test]
fn a_row_makes_room(rt: HostRuntime) -> Result<(), Fail> {
    let alloc = rt.alloc();
    let layout = layout_with(1, 0, 8).expect(&rt, "a layout");
    let first = client_in(&layout, 0).expect(&rt, "a client of rows 0 to 3");
    let second = client_in(&layout, 1).expect(&rt, "a client of rows 4 to 7");
    let place = cell_of(1, 0);
    assert_eq!(rt;
        plan_around_of(alloc, layout, first, second, false)?,
        Some(Plan::NoRoom)
    );
    assert_eq!(rt;
        plan_around_of(alloc, layout, first, second, true)?,
        Some(Plan::Slot { place })
    );
    Ok(())
}

// All keys clash: a key has a row beside the one in a slot, and the slot where that one is over.
#[test]
fn a_ledger_places_keys(rt: HostRuntime) -> Result<(), Fail> {
    let alloc = rt.alloc();
    let layout = layout_of(1, 0).expect(&rt, "a layout");
    let place = cell_of(1, 0);
    assert_eq!(rt;
        last_plan(alloc, &layout, false)?,
        Some(Plan::FullKey { row: 0 })
    );
    assert_eq!(rt;
        last_plan(alloc, &layout, true)?,
        Some(Plan::Slot { place })
    );
    Ok(())
}

// Buckets of each way, digest bits, and how many keys.
const BOOKS: [(u32, u8, u16); 5] = [(1, 0, 20), (1, 16, 40), (4, 2, 60), (8, 0, 60), (2, 1, 50)];

#[test]
fn both_bodies_agree(rt: HostRuntime) -> Result<(), Fail> {
    let mut all = 0;
    for (buckets, digest_bits, clients) in BOOKS.as_slice() {
        let layout = layout_of(*buckets, *digest_bits).expect(&rt, "a layout");
        let came = kinds(rt.alloc(), layout, *clients)?;
        all |= came.expect(&rt, "the bodies agree");
    }
    assert_eq!(rt; all, 15, "each kind of plan came");
    Ok(())
}
