ghost use Rattle.std.specs.Prelude.{◌≡◌, ℕ, ◌+◌, ◌<◌, ◌≤◌};

use crate::connection::Connection;
use crate::generator::Generator;
use crate::turns::{BLOCK, ROUND, connection_number};

/// The connections of the packets, in capture order. Those of a block are drawn anew in each of its rounds, so that none is kept.
#[derive(Clone, Copy)]
pub struct Connections {
    // Before the first draw of the block.
    block: Generator,
    // Before the next draw.
    generator: Generator,
}

impl Connections {
    ghost use Rattle.sr_gen.specs.Capture.{most_packets};
    ghost use Rattle.sr_gen.specs.Connection.{connection_of};
    ghost use Rattle.sr_gen.specs.Connections.{ready, StandsAt};
    ghost use Rattle.sr_gen.specs.Turns.{connection_number};

    /// Before the first packet of the capture made from this number.
    pub fn new(number: u64) -> Connections
        ensures { StandsAt number 0 result }
    {
        let generator = Generator::new(number);
        Connections {
            block: generator,
            generator,
        }
    }

    /// The connection of packet `t`, from 0, once those of all packets before it were taken.
    pub fn take(&mut self, t: u32) -> Connection
        requires { t < most_packets }
        ensures connection { (number : ℕ) → StandsAt number t self.old → result ≡ connection_of number (connection_number t) }
        ensures after { (number : ℕ) → StandsAt number t self.old → StandsAt number (t + 1) self.new }
    {
        self.begin(t);
        let drawn = self.generator.draw();
        Connection::new(connection_number(t), drawn)
    }

    // Goes back to the block's first draw where packet `t` begins a round, unless a new block begins there.
    fn begin(&mut self, t: u32)
        ensures { (number : ℕ) → StandsAt number t self.old → self.new ≡ ready number t }
    {
        if t % BLOCK == 0 {
            self.block = self.generator;
        } else if t % ROUND == 0 {
            self.generator = self.block;
        }
    }
}
