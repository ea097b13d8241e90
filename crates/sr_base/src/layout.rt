ghost use Rattle.std.specs.Prelude.{◌≡◌, ◌+◌, ◌<◌, ◌≤◌, ◌↔◌, IsTrue, MatchResult};
ghost use Rattle.sr_base.specs.Limit.{between, power_up_to, table_limit_of, other_limit_of, limit_of};
ghost use Rattle.sr_base.specs.Layout.{IsLayout};
ghost use Rattle.sr_base.specs.WordName.{filter_words, HasPlace, HasVersion, HasWord, entries_of, filter_start, pipes_start, vips_start, pools_start, down_start, words_of, entry_number, pipe_start, pool_start, place_of, NamesApart, PlacesBelow, EachPlaceNamed, StoresStand, StoresApart, FilterBitsHaveWords};

use crate::greatest::{
    MOST_BUCKETS, MOST_DIGEST_BITS, MOST_FILTER_BITS, MOST_FULL_ROWS, MOST_IDLE_MS, MOST_IN_POOL,
    MOST_LIVES, MOST_PIPES, MOST_RING_CELLS, MOST_SERVERS, MOST_VERSIONS, MOST_VIPS,
    MOST_WINDOW_MS,
};
use crate::{Place, Shape, WordName};
use std::marker::Model;
use thiserror::Error;

/// The first number of a layout that is outside its range, in the order of the numbers in a script.
#[derive(Clone, Copy, Debug, PartialEq, Eq, Error)]
pub enum ShapeLimit {
    /// Not 1 to 16 pipes.
    #[error("not 1 to 16 pipes")]
    Pipes,
    /// Not a power of two of buckets, 1 to 65,536.
    #[error("not a power of two of buckets, 1 to 65,536")]
    Buckets,
    /// More than 16 digest bits.
    #[error("more than 16 digest bits")]
    DigestBits,
    /// Not 2 to 64 versions.
    #[error("not 2 to 64 versions")]
    Versions,
    /// A greatest pool of no server.
    #[error("a greatest pool of no server")]
    PoolMax,
    /// Not a multiple of 4 of full-key rows, 4 to 65,536.
    #[error("not a multiple of 4 of full-key rows, 4 to 65,536")]
    FullRows,
    /// Not a power of two of filter bits, 1 to 1,048,576.
    #[error("not a power of two of filter bits, 1 to 1,048,576")]
    FilterBits,
    /// Not 1 to 65,536 ring cells.
    #[error("not 1 to 65,536 ring cells")]
    Ring,
    /// Not a window of 1 to 60,000 milliseconds.
    #[error("not a window of 1 to 60,000 milliseconds")]
    Window,
    /// Not 1 to 86,400,000 milliseconds between sweeps.
    #[error("not 1 to 86,400,000 milliseconds between sweeps")]
    Idle,
    /// No life.
    #[error("no life")]
    Lives,
    /// Not 1 to 16 virtual addresses.
    #[error("not 1 to 16 virtual addresses")]
    Vips,
    /// Not 1 to 65,536 servers.
    #[error("not 1 to 65,536 servers")]
    Servers,
}

/// How many words of each kind the tables have: a shape whose numbers are all in range, how many virtual addresses and how many servers.
#[derive(Clone, Copy, Debug, PartialEq, Eq)]
pub struct Layout {
    shape: Shape,
    vips: u8,
    servers: u32,
}

impl Model for Layout {
    ghost use Rattle.std.specs.Prelude.{◌≡◌, None};
    ghost use Rattle.sr_base.specs.Layout.{LayoutView};
    ghost use Rattle.sr_base.specs.Limit.{limit_of};

    ghost Value = { LayoutView };

    ghost view = { λ l. record { shape = l.shape; vips = l.vips; servers = l.servers } };

    ghost invariant = { λ l. limit_of l.shape l.vips l.servers ≡ None };

    ghost inverse = { λ v. record { shape = v.shape; vips = v.vips; servers = v.servers } };
}

impl Layout {
    /// The layout of these numbers. The error is the first of them, in the order of `ShapeLimit`, that is outside its range.
    pub fn new(shape: Shape, vips: u8, servers: u32) -> Result<Layout, ShapeLimit>
        ensures { MatchResult result
            (λ l. (limit_of shape vips servers ≡ None) × (l ≡ record { shape = shape; vips = vips; servers = servers }))
            (λ limit. limit_of shape vips servers ≡ Some limit) }
    {
        match first_limit(&shape, vips, servers) {
            Some(limit) => Err(limit),
            None => Ok(Layout {
                shape,
                vips,
                servers,
            }),
        }
    }

    /// The shape.
    pub fn shape(&self) -> &Shape
        ensures { result.now ≡ self.now.shape }
    {
        &self.shape
    }

    /// How many virtual addresses there are, 1 to 16.
    pub fn vips(&self) -> u8
        ensures { result ≡ self.now.vips }
    {
        self.vips
    }

    /// How many servers there are, 1 to 65,536.
    pub fn servers(&self) -> u32
        ensures { result ≡ self.now.servers }
    {
        self.servers
    }

    /// Whether it has a word of this name.
    pub fn has(&self, name: WordName) -> bool
        ensures { IsTrue result ↔ HasWord self.now name }
    {
        let shape = &self.shape;
        match name {
            WordName::Tick => true,
            WordName::Note { pipe } => pipe < shape.pipes,
            WordName::Ring { pipe, cell } => pipe < shape.pipes && cell < shape.ring,
            WordName::Slot { way, bucket, cell } => has_place(
                shape,
                Place::Slot { way, bucket, cell },
            ),
            WordName::Full { row } => has_place(shape, Place::Row { row }),
            WordName::Hit { place } => has_place(shape, place),
            WordName::Vip { vip } => vip < self.vips,
            WordName::Head { vip, version } => vip < self.vips && version < shape.versions,
            WordName::Member {
                vip,
                version,
                index,
            } => vip < self.vips && version < shape.versions && index < shape.pool_max,
            WordName::Down { server } => server < self.servers,
            WordName::Filter { index } => index < filter_words(shape),
        }
    }

    /// Where the word of a name stands among the words.
    pub fn place(&self, name: WordName) -> usize
        requires { HasWord self.now name }
        ensures value { result ≡ place_of self.now name }
        ensures below { result < words_of self.now }
    {
        match name {
            WordName::Tick => 2 * self.entries(),
            WordName::Note { pipe } => self.pipe_start(pipe),
            WordName::Ring { pipe, cell } => self.pipe_start(pipe) + (1 + cell as usize),
            WordName::Slot { way, bucket, cell } => self.entry(Place::Slot { way, bucket, cell }),
            WordName::Full { row } => self.entry(Place::Row { row }),
            WordName::Hit { place } => self.entries() + self.entry(place),
            WordName::Vip { vip } => self.vips_start() + vip as usize,
            WordName::Head { vip, version } => self.pool_start(vip, version),
            WordName::Member {
                vip,
                version,
                index,
            } => self.pool_start(vip, version) + (1 + index as usize),
            WordName::Down { server } => self.down_start() + server as usize,
            WordName::Filter { index } => self.filter_start() + index as usize,
        }
    }

    /// How many words it has.
    pub fn words(&self) -> usize
        ensures value { result ≡ words_of self.now }
        ensures most { result ≤ 2572321 }
    {
        self.down_start() + self.servers as usize
    }

    // How many cells and rows there are.
    #[tactic(auto, using(crate::proofs::Ranges::layout_ranges))]
    fn entries(&self) -> usize
        ensures value { result ≡ entries_of self.now.shape }
        ensures most { result ≤ 589824 }
    {
        8 * self.shape.buckets as usize + self.shape.full_rows as usize
    }

    // Where the filter begins.
    fn filter_start(&self) -> usize
        ensures value { result ≡ filter_start self.now.shape }
        ensures most { result ≤ 1179649 }
    {
        2 * self.entries() + 1
    }

    // Where the pipes' words begin.
    #[tactic(auto, using(crate::proofs::Ranges::layout_ranges))]
    fn pipes_start(&self) -> usize
        ensures value { result ≡ pipes_start self.now.shape }
        ensures most { result ≤ 1196033 }
    {
        self.filter_start() + filter_words(&self.shape) as usize
    }

    // Where the words of the virtual addresses begin.
    #[tactic(auto, using(crate::proofs::Ranges::pipes_most))]
    fn vips_start(&self) -> usize
        ensures value { result ≡ vips_start self.now.shape }
        ensures most { result ≤ 2244625 }
    {
        self.pipes_start() + self.shape.pipes as usize * (1 + self.shape.ring as usize)
    }

    // Where the words of the pools begin.
    #[tactic(auto, using(crate::proofs::Ranges::layout_ranges))]
    fn pools_start(&self) -> usize
        ensures value { result ≡ pools_start self.now }
        ensures most { result ≤ 2244641 }
    {
        self.vips_start() + self.vips as usize
    }

    // Where the down words begin.
    #[tactic(auto, using(crate::proofs::Ranges::pools_most))]
    fn down_start(&self) -> usize
        ensures value { result ≡ down_start self.now }
        ensures most { result ≤ 2506785 }
    {
        self.pools_start()
            + self.vips as usize * self.shape.versions as usize * (1 + self.shape.pool_max as usize)
    }

    // Where a pipe's words begin.
    #[tactic(auto, using(crate::proofs::Ranges::pipes_most))]
    fn pipe_start(&self, pipe: u8) -> usize
        requires { pipe < self.now.shape.pipes }
        ensures value { result ≡ pipe_start self.now.shape pipe }
        ensures below { result + (1 + self.now.shape.ring) ≤ vips_start self.now.shape }
        ensures most { result + (1 + self.now.shape.ring) ≤ 2244625 }
    {
        self.pipes_start() + pipe as usize * (1 + self.shape.ring as usize)
    }

    // Where the words of a version of a pool begin.
    #[tactic(auto, using(crate::proofs::Ranges::pool_fits, crate::proofs::Ranges::pools_most))]
    fn pool_start(&self, vip: u8, version: u8) -> usize
        requires { HasVersion self.now vip version }
        ensures value { result ≡ pool_start self.now vip version }
        ensures below { result + (1 + self.now.shape.pool_max) ≤ down_start self.now }
        ensures most { result + (1 + self.now.shape.pool_max) ≤ 2506785 }
    {
        let row = vip as usize * self.shape.versions as usize + version as usize;
        self.pools_start() + row * (1 + self.shape.pool_max as usize)
    }

    // Where a cell or a row is among them all.
    fn entry(&self, place: Place) -> usize
        requires { HasPlace self.now.shape place }
        ensures value { result ≡ entry_number self.now.shape place }
        ensures below { result < entries_of self.now.shape }
    {
        let buckets = self.shape.buckets as usize;
        match place {
            Place::Slot { way, bucket, cell } => ((way as usize - 1) * buckets + bucket as usize)
                * 4
                + cell as usize,
            Place::Row { row } => 8 * buckets + row as usize,
        }
    }
}

// Whether the tables have this cell or row.
fn has_place(shape: &Shape, place: Place) -> bool
    ensures { IsTrue result ↔ HasPlace shape.now place }
{
    match place {
        Place::Slot { way, bucket, cell } => 1 <= way
            && way <= 2
            && bucket < shape.buckets
            && cell < 4,
        Place::Row { row } => row < shape.full_rows,
    }
}

// How many words the filter has.
fn filter_words(shape: &Shape) -> u32
    ensures { result ≡ filter_words shape.now }
{
    (shape.filter_bits / 64).max(1)
}

// Whether a number is in a range, both ends included.
fn is_between(low: u64, high: u64, n: u64) -> bool
    ensures { result ≡ between low high n }
{
    low <= n && n <= high
}

// Whether a number is a power of two up to a greatest one.
fn is_power_up_to(most: u32, n: u32) -> bool
    ensures { result ≡ power_up_to most n }
{
    n.is_power_of_two() && n <= most
}

// The first number outside its range.
fn first_limit(shape: &Shape, vips: u8, servers: u32) -> Option<ShapeLimit>
    ensures { result ≡ limit_of shape.now vips servers }
{
    match first_table_limit(shape) {
        Some(limit) => Some(limit),
        None => first_other_limit(shape, vips, servers),
    }
}

// The first number outside its range among those up to the pools' greatest size.
fn first_table_limit(shape: &Shape) -> Option<ShapeLimit>
    ensures { result ≡ table_limit_of shape.now }
{
    if !is_between(1, MOST_PIPES, shape.pipes as u64) {
        return Some(ShapeLimit::Pipes);
    }
    if !is_power_up_to(MOST_BUCKETS, shape.buckets) {
        return Some(ShapeLimit::Buckets);
    }
    if !is_between(0, MOST_DIGEST_BITS, shape.digest_bits as u64) {
        return Some(ShapeLimit::DigestBits);
    }
    if !is_between(2, MOST_VERSIONS, shape.versions as u64) {
        return Some(ShapeLimit::Versions);
    }
    if !is_between(1, MOST_IN_POOL, shape.pool_max as u64) {
        return Some(ShapeLimit::PoolMax);
    }
    None
}

// The first number outside its range among the others.
fn first_other_limit(shape: &Shape, vips: u8, servers: u32) -> Option<ShapeLimit>
    ensures { result ≡ other_limit_of shape.now vips servers }
{
    let rows = shape.full_rows;
    if !(is_between(4, MOST_FULL_ROWS, rows as u64) && rows % 4 == 0) {
        return Some(ShapeLimit::FullRows);
    }
    if !is_power_up_to(MOST_FILTER_BITS, shape.filter_bits) {
        return Some(ShapeLimit::FilterBits);
    }
    if !is_between(1, MOST_RING_CELLS, shape.ring as u64) {
        return Some(ShapeLimit::Ring);
    }
    if !is_between(1, MOST_WINDOW_MS, shape.window_ms) {
        return Some(ShapeLimit::Window);
    }
    if !is_between(1, MOST_IDLE_MS, shape.idle_ms) {
        return Some(ShapeLimit::Idle);
    }
    if !is_between(1, MOST_LIVES, shape.lives as u64) {
        return Some(ShapeLimit::Lives);
    }
    if !is_between(1, MOST_VIPS, vips as u64) {
        return Some(ShapeLimit::Vips);
    }
    if !is_between(1, MOST_SERVERS, servers as u64) {
        return Some(ShapeLimit::Servers);
    }
    None
}

/// The ranges of a layout's numbers: all that `Layout::new` asks of them.
pub fn layout_ranges(layout: &Layout)
    ensures { IsLayout layout.now }
{
    let _ = &layout.shape;
}

/// The law of the filter's bits: the word of each of them, the bit's number divided by 64, is one that the layout has.
pub fn filter_bits_have_words(layout: &Layout)
    ensures { FilterBitsHaveWords layout.now }
{
    layout_ranges(layout);
}

/// The law of the places: different names have different ones, each place below the number of words has a name and no other place has; and
/// so in a list of words a store at a name is found there, and leaves the word of every other name.
pub fn words_stand_apart(layout: &Layout)
    ensures apart { NamesApart layout.now }
    ensures below { PlacesBelow layout.now }
    ensures named { EachPlaceNamed layout.now }
    ensures stand { StoresStand layout.now }
    ensures stores { StoresApart layout.now }
{}
