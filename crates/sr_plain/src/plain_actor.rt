ghost use Rattle.std.specs.Prelude.{◌≡◌};
ghost use Rattle.sr_machine.specs.Names.{name_for};

use crate::PlainBoard;
use sr_base::{Packet, Place, WordName};
use sr_machine::{Actor, Board, Name, Op};

/// One actor's access to the plain words.
#[derive(Drop)]
pub struct PlainActor<'a> {
    /// The words.
    pub board: &'a mut PlainBoard,
    /// The actor.
    pub actor: Actor,
}

impl Board for PlainActor<'_> {
    ghost use Rattle.std.specs.Prelude.{[], None, Some};
    ghost use Rattle.sr_core.specs.PlainWords.{ShowsWords};
    ghost use Rattle.sr_plain.specs.Actors.{FitsActor};
    ghost use Rattle.sr_plain.specs.Resting.{IsAtRest, reports_in};

    ghost fits = { λ b. FitsActor b.board.now.layout b.actor };

    ghost beside = { λ b. record {
      layout = b.board.now.layout;
      actor = Some b.actor;
      table = None;
      joined = [];
      name = Some b.board.ghost_name;
    } };

    ghost shows = { λ b. ShowsWords b.board.now.layout b.board.now.words };

    ghost rests = { λ b. IsAtRest b.board.now b.actor };

    ghost reports = { λ b. reports_in b.board.now };

    fn enter(&mut self, _packet: Packet) {}

    fn due(&mut self, _ms: u64) {}

    fn refuse(&mut self) {}

    fn load(&mut self, at: WordName) -> u64 {
        let board = &mut *self.board;
        board.words.make(Op::Loads { name: name_of(at) })
    }

    fn store(&mut self, at: WordName, value: u64) {
        let board = &mut *self.board;
        board.words.make(Op::Stores {
            name: name_of(at),
            value,
        });
    }

    fn swap(&mut self, at: WordName, value: u64) -> u64 {
        let board = &mut *self.board;
        board.words.make(Op::Swaps {
            name: name_of(at),
            value,
        })
    }

    fn add(&mut self, at: WordName, by: u64) -> u64 {
        let board = &mut *self.board;
        board.words.make(Op::Adds {
            name: name_of(at),
            by,
        })
    }

    fn or(&mut self, at: WordName, bits: u64) -> u64 {
        let board = &mut *self.board;
        board.words.make(Op::Ors {
            name: name_of(at),
            bits,
        })
    }
}

// The machine's name of a word.
fn name_of(at: WordName) -> Name
    ensures { result ≡ name_for at }
{
    match at {
        WordName::Tick => Name::Tick,
        WordName::Note { pipe } => Name::Note { pipe },
        WordName::Ring { pipe, cell } => Name::Ring { pipe, cell },
        WordName::Slot { way, bucket, cell } => Name::Entry {
            place: Place::Slot { way, bucket, cell },
        },
        WordName::Full { row } => Name::Entry {
            place: Place::Row { row },
        },
        WordName::Hit { place } => Name::Hit { place },
        WordName::Vip { vip } => Name::Vip { vip },
        WordName::Head { vip, version } => Name::Head { vip, version },
        WordName::Member {
            vip,
            version,
            index,
        } => Name::Member {
            vip,
            version,
            index,
        },
        WordName::Down { server } => Name::Down { server },
        WordName::Filter { index } => Name::Filter { index },
    }
}
