ghost use Rattle.std.specs.Prelude.{◌≡◌, List, ◌∷◌, length, map, replicate, true};
ghost use Rattle.std.specs.List.{range_with_len};
ghost use Rattle.sr_machine.specs.declared.pipe_view.PipeView.{PipeView as APipeView};
ghost use Rattle.sr_machine.specs.Config.{Config};
ghost use Rattle.sr_machine.specs.declared.view.View.{View};
ghost use Rattle.sr_machine.specs.declared.view.View.TheVariants.{OfPipe};
ghost use Rattle.sr_words.specs.Besides.{all_but_first};
ghost use Rattle.sr_words.specs.Steps.{FitsSeat, IsKnown, Learns};
ghost use Rattle.sr_words.specs.Boarding.{AreAtRest, FitIdle, held, is_controlled, number_of};

use crate::steps::learn_told;
use crate::{Resting, WordBoard};
use sr_base::words_stand_apart;
use std::marker::Brand;

/// The boards of one switch: one for each pipe in order of their numbers, and the controller's.
#[derive(Drop)]
pub struct Boards<'a> {
    /// The pipes' boards.
    pub pipes: Vec<WordBoard<'a>>,
    /// The controller's board.
    pub controller: WordBoard<'a>,
    ghost one_table: { map (λ b. b.seat.table_id) pipes.items ≡ replicate (length pipes.items) controller.seat.table_id },
    ghost one_each: { map (λ b. number_of b.seat.me.0.actors) pipes.items ≡ range_with_len 1 controller.layout.shape.pipes },
    ghost alone: { is_controlled controller.seat.me.0.actors ≡ true },
}

impl<'a> Boards<'a> {
    /// Joins the pipes' seats to the controller's, which knows the words from then on. No pipe has a packet in hand.
    pub fn rest(self) -> Resting<'a>
        requires { (views : List APipeView) × FitIdle (map held self.pipes.items) views }
        ensures rests { AreAtRest result.board.layout result.board.seat.me.0.actors }
        ensures pipes { (views : List APipeView) → FitIdle (map held self.entry.pipes.items) views
            → all_but_first result.board.seat.me.0.actors ≡ map OfPipe views }
        ensures fits { (k : Config) (y : View) → FitsSeat self.entry.controller.words.now.key self.entry.controller.seat.me.0 self.entry.controller.heard k y
            → FitsSeat result.board.words.now.key result.board.seat.me.0 result.board.heard k y }
        ensures known { (views : List APipeView) → FitIdle (map held self.entry.pipes.items) views → (k : Config) (y : View)
            → FitsSeat self.entry.controller.words.now.key self.entry.controller.seat.me.0 self.entry.controller.heard k y
            → IsKnown k (y ∷ map OfPipe views) result.board.seat.me.0.words }
        ensures key { result.board.words.now.key ≡ self.entry.controller.words.now.key }
        ensures layout { result.board.layout ≡ self.entry.controller.layout }
        ensures table { result.board.seat.table_id ≡ self.entry.controller.seat.table_id }
    {
        let mut board = self.join();
        learn(&mut board);
        Resting { board }
    }

    // Joins the pipes' seats to the controller's.
    fn join(self) -> WordBoard<'a>
        requires { (views : List APipeView) × FitIdle (map held self.pipes.items) views }
        ensures rests { AreAtRest result.layout result.seat.me.0.actors }
        ensures pipes { (views : List APipeView) → FitIdle (map held self.entry.pipes.items) views
            → all_but_first result.seat.me.0.actors ≡ map OfPipe views }
        ensures fits { (k : Config) (y : View) → FitsSeat self.entry.controller.words.now.key self.entry.controller.seat.me.0 self.entry.controller.heard k y
            → FitsSeat result.words.now.key result.seat.me.0 result.heard k y }
        ensures key { result.words.now.key ≡ self.entry.controller.words.now.key }
        ensures layout { result.layout ≡ self.entry.controller.layout }
        ensures table { result.seat.table_id ≡ self.entry.controller.seat.table_id }
    {
        let Boards {
            mut pipes,
            mut controller,
        } = self;
        while !pipes.is_empty() {
            let next = pipes.remove(0);
            controller.join(next);
        }
        controller
    }
}

// The board's seat comes to know the words.
fn learn(board: &mut WordBoard<'_>)
    requires { AreAtRest board.old.layout board.old.seat.me.0.actors }
    ensures learned { Learns board.old.words.now.key board.old.heard board.old.seat.me.0 board.new.seat.me.0 }
    ensures heard { board.new.heard ≡ board.old.heard }
    ensures key { board.new.words.now.key ≡ board.old.words.now.key }
    ensures layout { board.new.layout ≡ board.old.layout }
    ensures table { board.new.seat.table_id ≡ board.old.seat.table_id }
{
    words_stand_apart(&board.layout);
    learn_told::<Brand>(board.words, &mut board.seat, &board.heard);
}
