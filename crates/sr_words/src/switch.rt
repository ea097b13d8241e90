ghost use Rattle.std.specs.Prelude.{◌≡◌, [], IfOk};
ghost use Rattle.sr_base.specs.WordName.{words_of};
ghost use Rattle.sr_words.specs.Boarding.{AreNew, IsFirst};
ghost use Rattle.sr_words.specs.Steps.{ShowsAll};
ghost use Rattle.sr_words.specs.declared.heard.Heard.TheVariants.{Nothing};

use crate::steps::look_told;
use crate::{Boards, Closed, Heard, Knowing, Rested, Seated, Second, WordBoard};
use atomic_table::{Seat, Table};
use sr_acts::MachineConfig;
use sr_base::{Layout, layout_ranges, words_stand_apart};
use sr_core::PlainWords;
use std::alloc::{AllocError, Global};
use std::marker::Brand;

/// The shared words of a machine, for threads.
#[derive(Drop)]
pub struct Switch {
    pub(crate) table: Table<(), Seated, MachineConfig, Knowing, Global>,
    pub(crate) layout: Layout,
    pub(crate) ghost placed: { layout ≡ table.shared.key.layout },
    pub(crate) ghost wide: { table.shared.table_id.words ≡ words_of layout },
}

/// The seat of all actors of a switch, of which none has done anything.
#[derive(Drop)]
pub struct First {
    pub(crate) seat: Seat<(), Seated>,
}

impl Switch {
    /// The words at the beginning of a machine, and the seat of its actors.
    pub fn new(alloc: Global, config: &MachineConfig) -> Result<(Switch, First), AllocError>
        ensures config { IfOk result (λ r. r.0.table.shared.key ≡ config.now) }
        ensures first { IfOk result (λ r. IsFirst r.0.table.shared.key r.0.table.shared.table_id r.1.seat.table_id r.1.seat.me) }
    {
        config.fits();
        layout_ranges(config.layout());
        let layout = *config.layout();
        let words = PlainWords::opening_of(alloc, &layout, config.pools())?;
        let (table, seat) = Table::of_words(alloc, words.list(), config)?;
        Ok((Switch { table, layout }, First { seat }))
    }

    /// A board for each pipe, in order of their numbers, and one for the controller. Without memory the first seat is gone.
    pub fn boards(&self, alloc: Global, first: First) -> Result<Boards<'_>, AllocError>
        requires { IsFirst self.now.table.shared.key self.now.table.shared.table_id first.seat.table_id first.seat.me }
        ensures { IfOk result (λ b. AreNew self.now.table.shared.key self.now.table.shared.table_id b.pipes.items b.controller) }
    {
        words_stand_apart(&self.layout);
        let First { mut seat } = first;
        let count = self.layout.shape().pipes;
        let mut pipes = Vec::with_capacity(alloc, count as usize)?;
        for number in 0..count {
            let other = self.table.shared.split_seat::<Second>(&mut seat);
            pipes.push_reserved(self.board(other));
        }
        let controller = self.board(seat);
        Ok(Boards { pipes, controller })
    }

    // A board over a seat.
    fn board(&self, seat: Seat<(), Seated>) -> WordBoard<'_>
        requires table { seat.table_id ≡ self.now.table.shared.table_id }
        requires free { seat.me.1 ≡ [] }
        ensures words { result.words.now ≡ self.now.table.shared }
        ensures seat { result.seat ≡ seat }
        ensures heard { result.heard ≡ Nothing }
    {
        WordBoard {
            words: &self.table.shared,
            layout: self.layout,
            seat,
            heard: Heard::Nothing,
        }
    }

    /// The end of the words. What the actors of the joined seat know, they know in a state that events lead to.
    pub fn close(self, rested: Rested) -> Closed
        requires { rested.seat.table_id ≡ self.table.shared.table_id }
        ensures shown { ShowsAll self.table.shared.key rested.seat.me.0 rested.heard }
        ensures seat { result.seat.me.0 ≡ rested.seat.me.0 }
    {
        words_stand_apart(&self.layout);
        let Rested { mut seat, heard } = rested;
        look_told::<Brand>(&self.table.shared, &mut seat, &heard);
        drop(self);
        Closed { seat }
    }
}
