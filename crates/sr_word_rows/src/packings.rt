use sr_base::{FullWord, Key, Phase, RingKind, RingWord, RowHead, SlotWord, Version, VipWord};

// 10.0.0.9:4000, of the first virtual address.
const A: Key = Key {
    vip: 0,
    ip: 0x0a00_0009,
    port: 4000,
};

#[test]
fn rings(rt: HostRuntime) {
    assert_eq!(rt; A.pack(), 0x0a00_0009_0fa0);
    let zero = Version::new(0).expect(&rt, "0");
    let last = Version::new(63).expect(&rt, "63");
    let words = [
        (0x0400_0a00_0009_0fa0, RingKind::Learn, zero),
        (0x07f0_0a00_0009_0fa0, RingKind::Learn, last),
        (0x0800_0a00_0009_0fa0, RingKind::Punt, zero),
        (0x0c00_0a00_0009_0fa0, RingKind::Close, zero),
    ];
    for (number, kind, version) in words {
        let word = RingWord::unpack(number).expect(&rt, "a word");
        assert_eq!(rt;
            word,
            RingWord {
                kind,
                version,
                key: A
            }
        );
        assert_eq!(rt; word.pack(), number);
    }
    let others = [
        0,
        0x0000_0a00_0009_0fa0,
        0x0810_0a00_0009_0fa0,
        0x0ff0_0a00_0009_0fa0,
        0x1400_0a00_0009_0fa0,
        u64::MAX,
    ];
    for number in others {
        assert_eq!(rt; RingWord::unpack(number), None, "{number}");
    }
}

#[test]
fn slots(rt: HostRuntime) {
    let version = Version::new(5).expect(&rt, "5");
    let (vip, digest) = (3, 0xbeef);
    let words = [
        (0, SlotWord::Empty),
        (0x04ef_bbc0, SlotWord::Reserved { vip, digest }),
        (
            0x08ef_bbc5,
            SlotWord::Live {
                vip,
                digest,
                version,
            },
        ),
    ];
    for (number, want) in words {
        let word = SlotWord::unpack(number).expect(&rt, "a word");
        assert_eq!(rt; word, want);
        assert_eq!(rt; word.pack(), number);
    }
    for number in [
        1,
        1 << 6,
        1 << 22,
        0x04ef_bbc5,
        0x0cef_bbc5,
        0x18ef_bbc5,
        u64::MAX,
    ] {
        assert_eq!(rt; SlotWord::unpack(number), None, "{number}");
    }
}

#[test]
fn rows_of_full_keys(rt: HostRuntime) {
    let version = Version::new(5).expect(&rt, "5");
    let words = [
        (0, FullWord::Empty),
        (0x0400_0a00_0009_0fa0, FullWord::Reserved { key: A }),
        (0x0850_0a00_0009_0fa0, FullWord::Live { key: A, version }),
    ];
    for (number, want) in words {
        let word = FullWord::unpack(number).expect(&rt, "a word");
        assert_eq!(rt; word, want);
        assert_eq!(rt; word.pack(), number);
    }
    let others = [
        0x0000_0a00_0009_0fa0,
        1 << 52,
        0x0450_0a00_0009_0fa0,
        0x0c50_0a00_0009_0fa0,
        0x1850_0a00_0009_0fa0,
        u64::MAX,
    ];
    for number in others {
        assert_eq!(rt; FullWord::unpack(number), None, "{number}");
    }
}

#[test]
fn virtual_addresses(rt: HostRuntime) {
    let zero = Version::new(0).expect(&rt, "0");
    let one = Version::new(1).expect(&rt, "1");
    let words = [
        (0, Phase::Steady, zero, zero),
        (0x0041, Phase::Steady, one, one),
        (0x1040, Phase::Recording, one, zero),
        (0x2041, Phase::Holding, one, one),
        (0x3001, Phase::Transit, zero, one),
    ];
    for (number, phase, cur, next) in words {
        let word = VipWord::unpack(number).expect(&rt, "a word");
        assert_eq!(rt; word, VipWord { phase, cur, next });
        assert_eq!(rt; word.pack(), number);
    }
    for number in [1, 0x0040, 0x4000, u64::MAX] {
        assert_eq!(rt; VipWord::unpack(number), None, "{number}");
    }
}

#[test]
fn heads(rt: HostRuntime) {
    let words = [
        (0x0002_0000_0000_0007, 2, 7),
        (0x0001_0000_0000_0000, 1, 0),
        (0x00ff_ffff_ffff_ffff, 255, 0xffff_ffff_ffff),
    ];
    for (number, size, pool) in words {
        let head = RowHead::unpack(number).expect(&rt, "a head");
        assert_eq!(rt; head, RowHead { size, pool });
        assert_eq!(rt; head.pack(), number);
    }
    for number in [0, 0x0000_ffff_ffff_ffff, 0x0102_0000_0000_0007, u64::MAX] {
        assert_eq!(rt; RowHead::unpack(number), None, "{number}");
    }
}
