//! Two updates of one virtual address with two version numbers, and a change that is dropped.
ghost use Rattle.std.specs.Prelude.{◌≡◌, ◌<◌, [], Some, None, IfOk, IfSome};
ghost use Rattle.sr_update.specs.declared.number_state.NumberState.TheVariants.{Free, Current, Draining};
ghost use Rattle.sr_update.specs.declared.begin.Begin.TheVariants.{Started, VersionsFull, EmptyQueue};
ghost use Rattle.sr_update_rows.specs.Scene.{pair_of, all_three, last_two, last_one};

use sr_base::{Change, Layout, Pool, Shape, Version, What};
use sr_shadow::Shadow;
use sr_update::{Begin, Closing, Grace, Numbers, Passed, Recording, Updates};
use std::alloc::{AllocError, Global};
use std::test::Fail;

// A layout of one virtual address with two version numbers, and of two servers.
fn small_layout() -> Option<Layout>
    ensures { IfSome result (λ l. (l.vips ≡ 1) × (l.shape.versions ≡ 2)) }
{
    let shape = Shape {
        pipes: 1,
        buckets: 1,
        digest_bits: 0,
        versions: 2,
        pool_max: 16,
        full_rows: 4,
        filter_bits: 1,
        ring: 8,
        window_ms: 100,
        idle_ms: 1,
        lives: 1,
    };
    Layout::new(shape, 1, 2).ok()
}

// Its numbers.
fn opened(alloc: Global, layout: &Layout) -> Result<Numbers, AllocError>
    requires { (layout.now.vips ≡ 1) × (layout.now.shape.versions ≡ 2) }
    ensures { IfOk result (λ n. n ≡ pair_of Current Free) }
{
    Numbers::new(alloc, layout)
}

// Three changes that give the virtual address a pool, and between them one that takes a server down.
fn three_changes(
    alloc: Global,
    first: Pool,
    second: Pool,
    third: Pool,
) -> Result<Updates, AllocError>
    ensures { IfOk result (λ u. u ≡ record { gives = all_three; clock = None }) }
{
    let changes = vec![in alloc;
        Change {
            at_ms: 0,
            what: What::Give {
                vip: 0,
                pool: first
            }
        },
        Change {
            at_ms: 0,
            what: What::TakeDown { server: 1 }
        },
        Change {
            at_ms: 1,
            what: What::Give {
                vip: 0,
                pool: second
            }
        },
        Change {
            at_ms: 1,
            what: What::Give {
                vip: 0,
                pool: third
            }
        },
    ]?;
    Updates::new(alloc, &changes)
}

// A grace of one pipe, which is at rest.
fn rested(tick: u64) -> Option<Passed> {
    let mut grace = Grace::new(tick, 1);
    grace.saw(0);
    grace.finish().ok()
}

// Number 1 is given.
fn give_one(numbers: &mut Numbers, version: Version) -> Recording
    requires start { numbers.old ≡ pair_of Current Free }
    requires version { version ≡ 1 }
    ensures after { numbers.new ≡ pair_of Current Current }
    ensures vip { result.update.vip ≡ 0 }
    ensures replaced { result.update.replaced ≡ 0 }
{
    numbers.given(0, version)
}

// The update that gave it ends.
fn end_one(closing: Closing, passed: Passed, numbers: &mut Numbers)
    requires start { numbers.old ≡ pair_of Current Current }
    requires vip { closing.update.vip ≡ 0 }
    requires replaced { closing.update.replaced ≡ 0 }
    ensures { numbers.new ≡ pair_of Draining Current }
{
    closing.done(passed, numbers);
}

// Number 0 is released, as no key is registered.
fn release_zero(numbers: &mut Numbers, version: Version, book: &Shadow, passed: Passed)
    requires start { numbers.old ≡ pair_of Draining Current }
    requires version { version ≡ 0 }
    requires book { book.now.book.entries ≡ [] }
    ensures { numbers.new ≡ pair_of Free Current }
{
    numbers.release(0, version, book, passed);
}

// No time was told.
fn begin_before_any_time(updates: &mut Updates, numbers: &Numbers) -> Begin
    requires updates { updates.old ≡ record { gives = all_three; clock = None } }
    requires numbers { numbers.now ≡ pair_of Current Free }
    ensures same { updates.new ≡ updates.old }
    ensures answer { result ≡ EmptyQueue }
{
    updates.begin(numbers)
}

// The first change is due, and number 1 is Free.
fn begin_first(updates: &mut Updates, numbers: &Numbers) -> Begin
    requires updates { updates.old ≡ record { gives = all_three; clock = Some 0 } }
    requires numbers { numbers.now ≡ pair_of Current Free }
    ensures left { updates.new ≡ record { gives = last_two; clock = Some 0 } }
    ensures answer { result ≡ Started 0 1 2 }
{
    updates.begin(numbers)
}

// The second change is due, and no number is Free.
fn begin_when_full(updates: &mut Updates, numbers: &Numbers) -> Begin
    requires updates { updates.old ≡ record { gives = last_two; clock = Some 1 } }
    requires numbers { numbers.now ≡ pair_of Draining Current }
    ensures same { updates.new ≡ updates.old }
    ensures answer { result ≡ VersionsFull 0 }
{
    updates.begin(numbers)
}

// It is dropped.
fn refuse_second(updates: &mut Updates, numbers: &Numbers) -> u32
    requires updates { updates.old ≡ record { gives = last_two; clock = Some 1 } }
    requires numbers { numbers.now ≡ pair_of Draining Current }
    ensures left { updates.new ≡ record { gives = last_one; clock = Some 1 } }
    ensures position { result ≡ 2 }
{
    updates.refuse(numbers)
}

// The third change is due, and number 0 is Free again. Its pool's number counts the change that was dropped.
fn begin_third(updates: &mut Updates, numbers: &Numbers) -> Begin
    requires updates { updates.old ≡ record { gives = last_one; clock = Some 1 } }
    requires numbers { numbers.now ≡ pair_of Free Current }
    ensures left { updates.new ≡ record { gives = []; clock = Some 1 } }
    ensures answer { result ≡ Started 0 0 4 }
{
    updates.begin(numbers)
}

// The version of a number.
fn version(n: u8) -> Version
    requires { n < 64 }
    ensures { result ≡ n }
{
    match Version::new(n) {
        Some(version) => version,
        None => unreachable!(),
    }
}

// A pool of one server.
fn pool(alloc: Global, server: u32) -> Result<Option<Pool>, AllocError> {
    Ok(Pool::new(vec![in alloc; server]?))
}

// An update goes through its phases, while no key is registered.
fn phases(recording: Recording, book: &Shadow) -> Option<Closing>
    requires { book.now.book.entries ≡ [] }
    ensures { IfSome result (λ closing. closing.update ≡ recording.update) }
{
    let holding = recording.hold(rested(2)?, book, 0);
    let moving = holding.switch(rested(3)?);
    Some(moving.finish(rested(4)?, book))
}

// The first update, and what its beginning answers before any time was told and then.
fn first_update(
    updates: &mut Updates,
    numbers: &mut Numbers,
    book: &Shadow,
) -> Option<(Begin, Begin)>
    requires updates { updates.old ≡ record { gives = all_three; clock = None } }
    requires numbers { numbers.old ≡ pair_of Current Free }
    requires book { book.now.book.entries ≡ [] }
    ensures updates { IfSome result (λ _. updates.new ≡ record { gives = last_two; clock = Some 0 }) }
    ensures numbers { IfSome result (λ _. numbers.new ≡ pair_of Draining Current) }
{
    let before = begin_before_any_time(updates, numbers);
    updates.due(0);
    let then = begin_first(updates, numbers);
    let recording = give_one(numbers, version(1));
    let closing = phases(recording, book)?;
    end_one(closing, rested(5)?, numbers);
    Some((before, then))
}

// What is answered while no number is Free: the beginning, the position of the change that is dropped, and which number may be released.
fn dropped(
    updates: &mut Updates,
    numbers: &Numbers,
    book: &Shadow,
) -> (Begin, u32, Option<(u8, Version)>)
    requires updates { updates.old ≡ record { gives = last_two; clock = Some 0 } }
    requires numbers { numbers.now ≡ pair_of Draining Current }
    ensures { updates.new ≡ record { gives = last_one; clock = Some 1 } }
{
    updates.due(1);
    let full = begin_when_full(updates, numbers);
    (
        full,
        refuse_second(updates, numbers),
        numbers.first_drained(book.indexed()),
    )
}

// The released number is given again.
fn given_again(updates: &mut Updates, numbers: &mut Numbers, book: &Shadow) -> Option<Begin>
    requires updates { updates.old ≡ record { gives = last_one; clock = Some 1 } }
    requires numbers { numbers.old ≡ pair_of Draining Current }
    requires book { book.now.book.entries ≡ [] }
{
    release_zero(numbers, version(0), book, rested(6)?);
    Some(begin_third(updates, numbers))
}

fn started(version: Version, pool: u64) -> Begin {
    Begin::Started {
        vip: 0,
        version,
        pool,
    }
}

// What the calls of the scene answered, in order.
#[derive(Clone, Copy, Debug, PartialEq, Eq)]
struct Answers {
    before: Begin,
    first: Begin,
    full: Begin,
    refused: u32,
    drained: Option<(u8, Version)>,
    again: Begin,
}

// The scene, with a book that has no key.
fn played(updates: &mut Updates, numbers: &mut Numbers, book: &Shadow) -> Option<Answers>
    requires updates { updates.old ≡ record { gives = all_three; clock = None } }
    requires numbers { numbers.old ≡ pair_of Current Free }
    requires book { book.now.book.entries ≡ [] }
{
    let (before, first) = first_update(updates, numbers, book)?;
    let (full, refused, drained) = dropped(updates, numbers, book);
    let again = given_again(updates, numbers, book)?;
    Some(Answers {
        before,
        first,
        full,
        refused,
        drained,
        again,
    })
}

// The scene's pools.
fn pools(alloc: Global) -> Result<Option<(Pool, Pool, Pool)>, AllocError> {
    match (pool(alloc, 1)?, pool(alloc, 0)?, pool(alloc, 1)?) {
        (Some(first), Some(second), Some(third)) => Ok(Some((first, second, third))),
        _ => Ok(None),
    }
}

// The scene on a layout.
fn played_on(
    alloc: Global,
    layout: &Layout,
    pools: (Pool, Pool, Pool),
) -> Result<Option<Answers>, AllocError>
    requires { (layout.now.vips ≡ 1) × (layout.now.shape.versions ≡ 2) }
{
    let (first, second, third) = pools;
    let mut updates = three_changes(alloc, first, second, third)?;
    let mut numbers = opened(alloc, layout)?;
    let book = Shadow::new(alloc, layout)?;
    Ok(played(&mut updates, &mut numbers, &book))
}

// The scene on its layout.
fn scene_answers(alloc: Global) -> Result<Option<Answers>, AllocError> {
    match (small_layout(), pools(alloc)?) {
        (Some(layout), Some(pools)) => played_on(alloc, &layout, pools),
        _ => Ok(None),
    }
}

#[test]
fn a_released_number_is_given_again(rt: HostRuntime) -> Result<(), Fail> {
    let expected = Answers {
        before: Begin::EmptyQueue,
        first: started(version(1), 2),
        full: Begin::VersionsFull { vip: 0 },
        refused: 2,
        drained: Some((0, version(0))),
        again: started(version(0), 4),
    };
    assert_eq!(rt; scene_answers(rt.alloc())?, Some(expected));
    Ok(())
}
