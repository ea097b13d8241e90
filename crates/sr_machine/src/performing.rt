ghost use Rattle.std.specs.Prelude.{◌≡◌};
ghost use Rattle.sr_base.specs.WordName.{HasWord};
ghost use Rattle.sr_machine.specs.Boards.{FitsAfter, IsNext, ShowsAfter};
ghost use Rattle.sr_machine.specs.Names.{word_name};
ghost use Rattle.sr_machine.specs.Ops.{op_name};

use crate::{Board, Op};

/// Makes the next step of a view on its board, and answers what it learns: the word found, or at a store the number stored.
pub fn perform<B: Board>(board: &mut B, op: Op) -> u64
    requires named { HasWord (B.beside board.old).layout (word_name (op_name op)) }
    requires next { IsNext (B.fits board.old) op }
    ensures fits { FitsAfter (B.fits board.old) op result (B.fits board.new) }
    ensures beside { B.beside board.new ≡ B.beside board.old }
    ensures words { ShowsAfter (B.shows board.old) op result (B.shows board.new) }
    ensures rest { B.rests board.old → B.rests board.new }
{
    match op {
        Op::Loads { name } => board.load(name.word()),
        Op::Stores { name, value } => {
            board.store(name.word(), value);
            value
        }
        Op::Swaps { name, value } => board.swap(name.word(), value),
        Op::Adds { name, by } => board.add(name.word(), by),
        Op::Ors { name, bits } => board.or(name.word(), bits),
    }
}
