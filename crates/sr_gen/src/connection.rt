ghost use Rattle.std.specs.Prelude.{◌≡◌, ◌+◌, ◌^◌, ◌<◌};

// 10.0.0.1
const FIRST_SOURCE: u32 = 0x0a00_0001;

// 192.0.2.1
const FIRST_VIP: u32 = 0xc000_0201;

/// A connection: its client's address and port, and the virtual address that it goes to.
#[derive(Clone, Copy)]
pub struct Connection {
    pub source: u32,
    pub port: u16,
    pub vip: u32,
}

impl Connection {
    ghost use Rattle.sr_gen.specs.Connection.{address, connection_with};

    /// Connection `i`, from 0, for which `drawn` was drawn.
    pub fn new(i: u32, drawn: u32) -> Connection
        requires { address 10 0 0 1 + i < 2 ^ 32 }
        ensures { result ≡ connection_with i drawn }
    {
        Connection {
            source: FIRST_SOURCE + i,
            port: (1024 + drawn / 4 % 60_000) as u16,
            vip: FIRST_VIP + drawn % 4,
        }
    }
}
