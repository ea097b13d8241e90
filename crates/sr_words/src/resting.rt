ghost use Rattle.std.specs.Prelude.{◌≡◌, []};

use crate::{Heard, Seated, WordBoard};
use atomic_table::Seat;
use sr_base::{Packet, WordName};
use sr_inv::every_state_meets_the_invariant;
use sr_machine::Board;

/// The controller's board once no pipe has a packet in hand: the pipes' seats are joined to the controller's, so that no pipe can step,
/// each note is 0, and nobody else changes a word. So it tells the words.
#[derive(Drop)]
pub struct Resting<'a> {
    pub(crate) board: WordBoard<'a>,
}

/// The joined seat, when no board is held any more.
#[derive(Drop)]
pub struct Rested {
    pub(crate) seat: Seat<(), Seated>,
    pub(crate) heard: Heard,
    pub(crate) ghost free: { seat.me.1 ≡ [] },
}

/// What is left of a switch: contracts see what the actors of the joined seat know. It has no bytes.
#[derive(Drop)]
pub struct Closed {
    pub(crate) seat: Seat<(), Seated>,
}

impl Board for Resting<'_> {
    ghost use Rattle.sr_words.specs.Besides.{beside_of};
    ghost use Rattle.sr_words.specs.Boarding.{AreAtRest, reports_in};
    ghost use Rattle.sr_words.specs.Seats.{ShowsKnown};
    ghost use Rattle.sr_words.specs.Steps.{FitsSeat};

    ghost fits = { λ r. FitsSeat r.board.words.now.key r.board.seat.me.0 r.board.heard };

    ghost beside = { λ r. beside_of r.board.layout r.board.seat.table_id r.board.seat.me.0 };

    ghost shows = { λ r. ShowsKnown r.board.layout r.board.seat.me.0.words };

    ghost rests = { λ r. AreAtRest r.board.layout r.board.seat.me.0.actors };

    ghost reports = { λ r. reports_in r.board.seat.me.0.actors };

    fn enter(&mut self, packet: Packet) {
        let board = &mut self.board;
        board.heard.enter(packet);
    }

    fn due(&mut self, ms: u64) {
        let board = &mut self.board;
        board.heard.due(ms);
    }

    fn refuse(&mut self) {
        let board = &mut self.board;
        board.heard.refuse();
    }

    fn load(&mut self, at: WordName) -> u64 {
        every_state_meets_the_invariant();
        self.board.loads(at)
    }

    fn store(&mut self, at: WordName, value: u64) {
        every_state_meets_the_invariant();
        self.board.stores(at, value);
    }

    fn swap(&mut self, at: WordName, value: u64) -> u64 {
        every_state_meets_the_invariant();
        self.board.swaps(at, value)
    }

    fn add(&mut self, at: WordName, by: u64) -> u64 {
        every_state_meets_the_invariant();
        self.board.adds(at, by)
    }

    fn or(&mut self, at: WordName, bits: u64) -> u64 {
        every_state_meets_the_invariant();
        self.board.ors(at, bits)
    }
}

impl Resting<'_> {
    /// Keeps the joined seat, and gives up the words.
    pub fn leave(self) -> Rested
        ensures table { result.seat.table_id ≡ self.entry.board.seat.table_id }
        ensures seat { result.seat.me.0 ≡ self.entry.board.seat.me.0 }
        ensures heard { result.heard ≡ self.entry.board.heard }
    {
        let Resting { board } = self;
        let WordBoard {
            words: _,
            layout: _,
            seat,
            heard,
        } = board;
        Rested { seat, heard }
    }
}
