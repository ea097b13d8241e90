//! Reads pcapng captures: blocks one after another, each of a type, a length, a body and the length again. A section header says the byte
//! order of its section, an interface description says the link type and the clock of an interface, and an enhanced packet block carries a
//! packet. Blocks of other types are passed over.
//!
//! `NgReader::begin` makes a reader, and `NgReader::next` reads on to the next packet. Whatever pieces the source cuts its bytes into, it
//! answers what the definition `next_from` reads off the list of the bytes that are left.
#![tactic(auto)]

mod ahead;
mod block;
mod endian;
mod front;
mod interface;
mod ng_next;
mod ng_reader;
mod option_head;
mod options;
mod packet_head;
mod section;
mod stop;

pub use ng_next::NgNext;
pub use ng_reader::NgReader;

#[cfg(test)]
mod tests;
