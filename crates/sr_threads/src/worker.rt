ghost use Rattle.std.specs.Prelude.{◌≡◌, ◌∷◌, [], false, filter, if◌then◌else◌};
ghost use Rattle.sr_machine.specs.Pipe.{has_vip};
ghost use Rattle.sr_threads.specs.Working.{IsReady, Worked, share_in};

use sr_base::{Layout, Packet, layout_ranges};
use sr_hash::pipe_of;
use sr_io::Gate;
use sr_pipe::Pipe;
use sr_rounds::Timed;
use sr_words::WordBoard;

// Lines of a pipe, at most: one less than a pipe may have.
const MOST_LINES: usize = (1 << 32) - 2;

/// A pipe with its board, for a thread.
#[derive(Drop)]
pub struct Worker<'a> {
    /// The board.
    pub board: WordBoard<'a>,
    /// The pipe.
    pub pipe: Pipe,
    /// Whether a packet found no room for its line, and wasn't handled.
    pub short: bool,
}

impl Worker<'_> {
    // Handles a packet, where the layout has its virtual address.
    fn handle<G: Gate>(&mut self, layout: &Layout, packet: Packet, gate: &G)
        requires { IsReady layout.now self.old }
        ensures { Worked self.old (if has_vip layout.now packet then packet ∷ [] else []) self.new }
    {
        if packet.key.vip >= layout.vips() || self.short {
            return;
        }
        if self.pipe.lines().len() >= MOST_LINES || self.pipe.reserve(1).is_err() {
            self.short = true;
            return;
        }
        self.pipe.handle(&mut self.board, packet, gate);
    }

    /// Handles the packets whose keys name its pipe, in order.
    pub fn work<G: Gate>(&mut self, layout: &Layout, packets: &[Timed], gate: &G)
        requires { IsReady layout.now self.old }
        ensures { Worked self.old (share_in layout.now self.old.pipe.view.number packets.now) self.new }
    {
        layout_ranges(layout);
        let number = self.pipe.number();
        let pipes = layout.shape().pipes;
        for timed in packets {
            if pipe_of(timed.packet.key, pipes) == number {
                self.handle(layout, timed.packet, gate);
            }
        }
    }
}
