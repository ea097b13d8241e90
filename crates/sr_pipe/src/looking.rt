//! A packet looks at the places of its key: the rows of its group, then the cells of its two buckets.

ghost use Rattle.std.specs.Prelude.{◌≡◌, ℕ, ◌+◌, ◌*◌, ◌<◌, ◌≤◌, List, []};
ghost use Rattle.sr_base.specs.WordName.{HasPlace};
ghost use Rattle.sr_base.specs.declared.place.Place.{Place as APlace};
ghost use Rattle.sr_base.specs.declared.place.Place.TheVariants.{Row as ARow, Slot as ASlot};
ghost use Rattle.sr_core.specs.Ranges.{SaidFits};
ghost use Rattle.sr_hash.specs.Uses.{bucket_of, digest_of, group_of};
ghost use Rattle.sr_machine.specs.Reads.{says};
ghost use Rattle.sr_machine.specs.Stages.{looking};
ghost use Rattle.sr_machine.specs.declared.leg.Leg.TheVariants.{Look};
ghost use Rattle.sr_machine.specs.declared.stage.Stage.TheVariants.{Fly};
ghost use Rattle.sr_pipe.specs.Choices.{FoundFits, found_leg};
ghost use Rattle.sr_pipe.specs.Known.{Goes, IsFor, at_stage, known, staged};
ghost use Rattle.sr_pipe.specs.Places.{places_from};

use crate::Found;
use crate::found::found_at;
use sr_base::{FullWord, Key, Layout, Place, SlotWord, WordName, layout_ranges};
use sr_core::PipeMachine;
use sr_core::reads::{digest_says, row_says};
use sr_hash::{bucket, digest, group};
use sr_machine::{Board, Flight, Said};

// What the word of a row says to a packet of the key.
#[tactic(auto, unfolding(sr_machine::specs::Reads::says))]
fn full_says(layout: &Layout, row: u32, key: Key, x: u64) -> Said
    ensures value { result ≡ says layout.now (ARow row) key x }
    ensures fits { SaidFits layout.now result }
{
    let _ = row;
    match FullWord::unpack(x) {
        Some(word) => row_says(layout, key, &word),
        None => Said::Nothing,
    }
}

// What the word of a cell of this way says to a packet of the key, whose digest of the way this is.
#[tactic(auto, unfolding(sr_machine::specs::Reads::says))]
fn slot_says(layout: &Layout, place: Place, way: u8, key: Key, own: u16, x: u64) -> Said
    requires digest { own ≡ digest_of way key layout.now.shape.digest_bits }
    requires way { (bucket : ℕ) × (cell : ℕ) × (place ≡ ASlot way bucket cell) }
    ensures value { result ≡ says layout.now place key x }
    ensures fits { SaidFits layout.now result }
{
    let _ = place;
    match SlotWord::unpack(x) {
        Some(word) => digest_says(layout, way, key, own, &word),
        None => Said::Nothing,
    }
}

// It looks at this row.
fn look_row<B: Board>(board: &mut B, pipe: &PipeMachine, flight: &Flight, row: u32) -> Found
    requires row { row < pipe.now.layout.shape.full_rows }
    requires board { (rest : List APlace) × IsFor (B.fits board.old) (B.beside board.old)
        (at_stage pipe.now (Fly flight.now (Look (ARow row) rest))) }
    ensures goes { (rest : List APlace) → Goes pipe.now.layout
        (known (B.fits board.old) (B.shows board.old) (B.beside board.old) (B.rests board.old))
        (staged pipe.now.view (Fly flight.now (Look (ARow row) rest)))
        (known (B.fits board.new) (B.shows board.new) (B.beside board.new) (B.rests board.new))
        (staged pipe.now.view (Fly flight.now (found_leg pipe.now.layout flight.now rest result))) }
    ensures fits { FoundFits pipe.now.layout result }
{
    let layout = pipe.layout();
    let x = board.load(WordName::Full { row });
    let said = full_says(layout, row, flight.packet.key, x);
    found_at(layout, flight, Place::Row { row }, said)
}

// The first row of a key's group.
fn first_row(layout: &Layout, key: Key) -> u32
    ensures value { result ≡ 4 * group_of key layout.now.shape.full_rows }
    ensures below { result + 4 ≤ layout.now.shape.full_rows }
{
    layout_ranges(layout);
    4 * group(key, layout.shape().full_rows)
}

// It looks at the rows of its group.
fn look_rows<B: Board>(board: &mut B, pipe: &PipeMachine, flight: &Flight) -> Found
    requires board { IsFor (B.fits board.old) (B.beside board.old)
        (at_stage pipe.now (Fly flight.now (looking pipe.now.layout flight.now (places_from pipe.now.layout flight.now.packet.key 0)))) }
    ensures goes { Goes pipe.now.layout (known (B.fits board.old) (B.shows board.old) (B.beside board.old) (B.rests board.old))
        (staged pipe.now.view (Fly flight.now (looking pipe.now.layout flight.now (places_from pipe.now.layout flight.now.packet.key 0))))
        (known (B.fits board.new) (B.shows board.new) (B.beside board.new) (B.rests board.new))
        (staged pipe.now.view (Fly flight.now (found_leg pipe.now.layout flight.now
        (places_from pipe.now.layout flight.now.packet.key 4) result))) }
    ensures fits { FoundFits pipe.now.layout result }
{
    let first = first_row(pipe.layout(), flight.packet.key);
    for i in 0..4 {
        match look_row(board, pipe, flight, first + i) {
            Found::Nothing => {}
            found => return found,
        }
    }
    Found::Nothing
}

// It looks at this cell of its bucket, of the way of which its digest is this.
fn look_cell<B: Board>(
    board: &mut B,
    pipe: &PipeMachine,
    flight: &Flight,
    way: u8,
    bucket: u32,
    cell: u8,
    own: u16,
) -> Found
    requires digest { own ≡ digest_of way flight.now.packet.key pipe.now.layout.shape.digest_bits }
    requires place { HasPlace pipe.now.layout.shape (ASlot way bucket cell) }
    requires board { (rest : List APlace) × IsFor (B.fits board.old) (B.beside board.old)
        (at_stage pipe.now (Fly flight.now (Look (ASlot way bucket cell) rest))) }
    ensures goes { (rest : List APlace) → Goes pipe.now.layout
        (known (B.fits board.old) (B.shows board.old) (B.beside board.old) (B.rests board.old))
        (staged pipe.now.view (Fly flight.now (Look (ASlot way bucket cell) rest)))
        (known (B.fits board.new) (B.shows board.new) (B.beside board.new) (B.rests board.new))
        (staged pipe.now.view (Fly flight.now (found_leg pipe.now.layout flight.now rest result))) }
    ensures fits { FoundFits pipe.now.layout result }
{
    let layout = pipe.layout();
    let place = Place::Slot { way, bucket, cell };
    let x = board.load(WordName::Slot { way, bucket, cell });
    let said = slot_says(layout, place, way, flight.packet.key, own, x);
    found_at(layout, flight, place, said)
}

// A key's bucket of this way.
fn own_bucket(layout: &Layout, way: u8, key: Key) -> u32
    requires { (1 ≤ way) × (way ≤ 2) }
    ensures value { result ≡ bucket_of way key layout.now.shape.buckets }
    ensures below { result < layout.now.shape.buckets }
{
    layout_ranges(layout);
    bucket(way, key, layout.shape().buckets)
}

// A key's digest of this way.
fn own_digest(layout: &Layout, way: u8, key: Key) -> u16
    requires { (1 ≤ way) × (way ≤ 2) }
    ensures { result ≡ digest_of way key layout.now.shape.digest_bits }
{
    layout_ranges(layout);
    digest(way, key, layout.shape().digest_bits)
}

// It looks at the cells of its bucket of this way.
fn look_cells<B: Board>(board: &mut B, pipe: &PipeMachine, flight: &Flight, way: u8) -> Found
    requires way { (1 ≤ way) × (way ≤ 2) }
    requires board { IsFor (B.fits board.old) (B.beside board.old)
        (at_stage pipe.now (Fly flight.now (looking pipe.now.layout flight.now (places_from pipe.now.layout flight.now.packet.key (4 * way))))) }
    ensures goes { Goes pipe.now.layout (known (B.fits board.old) (B.shows board.old) (B.beside board.old) (B.rests board.old))
        (staged pipe.now.view (Fly flight.now (looking pipe.now.layout flight.now (places_from pipe.now.layout flight.now.packet.key (4 * way)))))
        (known (B.fits board.new) (B.shows board.new) (B.beside board.new) (B.rests board.new))
        (staged pipe.now.view (Fly flight.now (found_leg pipe.now.layout flight.now
        (places_from pipe.now.layout flight.now.packet.key (4 * way + 4)) result))) }
    ensures fits { FoundFits pipe.now.layout result }
{
    let bucket = own_bucket(pipe.layout(), way, flight.packet.key);
    let own = own_digest(pipe.layout(), way, flight.packet.key);
    for cell in 0..4 {
        match look_cell(board, pipe, flight, way, bucket, cell, own) {
            Found::Nothing => {}
            found => return found,
        }
    }
    Found::Nothing
}

// It looks at them all, until it finds an entry that it goes by or that holds it.
pub(crate) fn look<B: Board>(board: &mut B, pipe: &PipeMachine, flight: &Flight) -> Found
    requires board { IsFor (B.fits board.old) (B.beside board.old)
        (at_stage pipe.now (Fly flight.now (looking pipe.now.layout flight.now (places_from pipe.now.layout flight.now.packet.key 0)))) }
    ensures goes { Goes pipe.now.layout (known (B.fits board.old) (B.shows board.old) (B.beside board.old) (B.rests board.old))
        (staged pipe.now.view (Fly flight.now (looking pipe.now.layout flight.now (places_from pipe.now.layout flight.now.packet.key 0))))
        (known (B.fits board.new) (B.shows board.new) (B.beside board.new) (B.rests board.new))
        (staged pipe.now.view (Fly flight.now (found_leg pipe.now.layout flight.now [] result))) }
    ensures fits { FoundFits pipe.now.layout result }
{
    let found = look_rows(board, pipe, flight);
    let Found::Nothing = found else {
        return found;
    };
    let found = look_cells(board, pipe, flight, 1);
    let Found::Nothing = found else {
        return found;
    };
    look_cells(board, pipe, flight, 2)
}
