use sr_base::{Layout, Place, Shape, WordName};

const SMALL: Shape = Shape {
    pipes: 2,
    buckets: 2,
    digest_bits: 4,
    versions: 2,
    pool_max: 2,
    full_rows: 4,
    filter_bits: 64,
    ring: 3,
    window_ms: 1,
    idle_ms: 1,
    lives: 1,
};

const GREATEST: Shape = Shape {
    pipes: 16,
    buckets: 65_536,
    digest_bits: 16,
    versions: 64,
    pool_max: 255,
    full_rows: 65_536,
    filter_bits: 1_048_576,
    ring: 65_536,
    window_ms: 60_000,
    idle_ms: 86_400_000,
    lives: 255,
};

// Where the name's word stands, if the layout has it.
fn found(layout: &Layout, name: WordName) -> Option<usize> {
    if layout.has(name) {
        Some(layout.place(name))
    } else {
        None
    }
}

#[test]
fn places(rt: HostRuntime) {
    let greatest = Layout::new(GREATEST, 16, 65_536).expect(&rt, "the greatest");
    assert_eq!(rt; greatest.words(), 2_572_321);
    let layout = Layout::new(SMALL, 2, 3).expect(&rt, "a small one");
    assert_eq!(rt; layout.words(), 67);
    let at = Place::Slot {
        way: 2,
        bucket: 1,
        cell: 3,
    };
    let rows = [
        (
            WordName::Slot {
                way: 1,
                bucket: 1,
                cell: 2,
            },
            Some(6),
        ),
        (
            WordName::Slot {
                way: 2,
                bucket: 1,
                cell: 3,
            },
            Some(15),
        ),
        (
            WordName::Slot {
                way: 3,
                bucket: 0,
                cell: 0,
            },
            None,
        ),
        (WordName::Full { row: 3 }, Some(19)),
        (WordName::Hit { place: at }, Some(35)),
        (
            WordName::Hit {
                place: Place::Row { row: 3 },
            },
            Some(39),
        ),
        (WordName::Tick, Some(40)),
        (WordName::Filter { index: 0 }, Some(41)),
        (WordName::Filter { index: 1 }, None),
        (WordName::Ring { pipe: 0, cell: 2 }, Some(45)),
        (WordName::Note { pipe: 1 }, Some(46)),
        (WordName::Vip { vip: 1 }, Some(51)),
        (WordName::Head { vip: 0, version: 0 }, Some(52)),
        (
            WordName::Member {
                vip: 1,
                version: 1,
                index: 1,
            },
            Some(63),
        ),
        (WordName::Down { server: 2 }, Some(66)),
    ];
    for (name, place) in rows {
        assert_eq!(rt; found(&layout, name), place, "{name:?}");
    }
}
