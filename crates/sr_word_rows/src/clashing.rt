ghost use Rattle.std.specs.Prelude.{◌<◌};

use sr_base::{Key, Shape, SlotWord, Version};
use sr_hash::{clashes, matches};

const SHAPE: Shape = Shape {
    pipes: 1,
    buckets: 2,
    digest_bits: 4,
    versions: 2,
    pool_max: 2,
    full_rows: 4,
    filter_bits: 64,
    ring: 1,
    window_ms: 1,
    idle_ms: 1,
    lives: 1,
};

const fn key(vip: u8, host: u8, port: u16) -> Key
    requires { vip < 16 }
{
    Key {
        vip,
        ip: 0x0a00_0000 + host as u32,
        port,
    }
}

// The digests of 0/10.0.0.9:4000 are c1e4 in way 1 and 9693 in way 2.
#[test]
fn cells(rt: HostRuntime) {
    let version = Version::new(1).expect(&rt, "1");
    let rows = [
        (SlotWord::Empty, 1, 0, false),
        (
            SlotWord::Reserved {
                vip: 0,
                digest: 0xc1e4,
            },
            1,
            16,
            true,
        ),
        (
            SlotWord::Live {
                vip: 0,
                digest: 0xc1e4,
                version,
            },
            1,
            16,
            true,
        ),
        (
            SlotWord::Live {
                vip: 0,
                digest: 0x9693,
                version,
            },
            2,
            16,
            true,
        ),
        (
            SlotWord::Live {
                vip: 0,
                digest: 0xc1e4,
                version,
            },
            2,
            16,
            false,
        ),
        (
            SlotWord::Live {
                vip: 0,
                digest: 0x9693,
                version,
            },
            1,
            16,
            false,
        ),
        (
            SlotWord::Live {
                vip: 3,
                digest: 0xc1e4,
                version,
            },
            1,
            16,
            false,
        ),
        (
            SlotWord::Live {
                vip: 0,
                digest: 4,
                version,
            },
            1,
            4,
            true,
        ),
        (
            SlotWord::Live {
                vip: 0,
                digest: 0xc1e4,
                version,
            },
            1,
            4,
            false,
        ),
        (SlotWord::Reserved { vip: 0, digest: 0 }, 2, 0, true),
    ];
    for (word, way, bits, want) in rows {
        assert_eq!(rt; matches(word, way, key(0, 9, 4000), bits), want, "{word:?}");
    }
}

// With 0/10.0.0.9:4000, in way 1 and in way 2.
#[test]
fn pairs(rt: HostRuntime) {
    let rows = [
        (key(0, 9, 4000), true, true),
        (key(0, 9, 4016), true, true),
        (key(0, 9, 4362), true, false),
        (key(0, 9, 4366), false, true),
        (key(0, 9, 4002), false, false),
        (key(0, 60, 4000), false, false),
        (key(0, 110, 4000), false, false),
        (key(1, 9, 4000), false, false),
    ];
    for (other, first, second) in rows {
        assert_eq!(rt;
            clashes(&SHAPE, 1, key(0, 9, 4000), other),
            first,
            "{other:?}"
        );
        assert_eq!(rt;
            clashes(&SHAPE, 2, key(0, 9, 4000), other),
            second,
            "{other:?}"
        );
    }
}
