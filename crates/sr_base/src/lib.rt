//! The words that everything else speaks in: keys of connections, packets, pools of servers and their versions, places of
//! the tables, changes, and the shape and layout of the tables; and the 64-bit words that threads share, each as a value that packs to a
//! number, with their names and where each stands. Nothing here acts.
#![tactic(auto)]

mod change;
mod full_word;
mod greatest;
mod key;
mod kind;
mod layout;
mod packet;
mod place;
mod pool;
mod ring_word;
mod row_head;
mod shape;
mod slot_word;
mod version;
mod vip_word;
mod word_name;

pub use change::{Change, What};
pub use full_word::{FullWord, full_unpacks};
pub use greatest::{
    MOST_BUCKETS, MOST_DIGEST_BITS, MOST_FILTER_BITS, MOST_FULL_ROWS, MOST_IDLE_MS, MOST_IN_POOL,
    MOST_LIVES, MOST_PIPES, MOST_RING_CELLS, MOST_SERVERS, MOST_VERSIONS, MOST_VIPS,
    MOST_WINDOW_MS,
};
pub use key::{Key, key_ranges, key_unpacks};
pub use kind::Kind;
pub use layout::{Layout, ShapeLimit, filter_bits_have_words, layout_ranges, words_stand_apart};
pub use packet::Packet;
pub use place::Place;
pub use pool::Pool;
pub use ring_word::{RingKind, RingWord, ring_unpacks};
pub use row_head::{RowHead, head_unpacks};
pub use shape::Shape;
pub use slot_word::{SlotWord, slot_unpacks};
pub use version::Version;
pub use vip_word::{Phase, VipWord, vip_unpacks};
pub use word_name::WordName;
