ghost use Rattle.std.specs.Prelude.{◌≡◌, ℕ, ◌+◌, ◌<◌, ◌≤◌, List, [], length, None, Ok, Err, Some, IfOk};
ghost use Rattle.sr_pcapng.specs.Front.{most_captured};
ghost use Rattle.std.specs.Option.{ForSome};
ghost use Rattle.sr_io.specs.Faults.{Counts};
ghost use Rattle.sr_io.specs.Window.{Pending};
ghost use Rattle.sr_pcapng.specs.Next.{front_place, at_end};
ghost use Rattle.sr_pcapng.specs.Reader.{Answers, Ends, Keeps, Steps, next_at};
ghost use Rattle.sr_pcapng.specs.declared.ng_next.NgNext.TheVariants.{ReadFault};
ghost use Rattle.sr_pcapng.specs.declared.stop.Stop.TheVariants as stop;

use crate::NgNext;
use crate::ahead::Ahead;
use crate::block::read_block;
use crate::packet_head::PacketHead;
use crate::section::{MOST_CAPTURED, Section};
use crate::stop::Stop;
use sr_io::{Source, Window};
use std::alloc::{AllocError, Global};
use std::marker::Model;

// The most blocks of a capture.
const MOST_BLOCKS: u32 = 16_777_216;

/// Reads a pcapng capture, a packet at a time. The source is handed to each call, and must be the same one each time. It is read ahead.
#[derive(Debug, Drop)]
pub struct NgReader {
    section: Section,
    offset: u64,
    // How many more blocks the capture may have.
    room: u32,
    // Room for the captured bytes of a packet, and how many of them there are.
    packet: Vec<u8>,
    size: usize,
    ahead: Ahead,
    ended: Option<NgNext>,
}

impl Model for NgReader {
    ghost use Rattle.std.specs.Prelude.{◌≡◌, ◌+◌, ◌*◌, ◌^◌, ◌≤◌, take, vec_len};
    ghost use Rattle.sr_pcapng.specs.Front.{most_captured};
    ghost use Rattle.sr_pcapng.specs.Reader.{ReaderView};

    ghost Value = { ReaderView };

    ghost view = { λ r. record {
      place = record { room = r.room; offset = r.offset; section = r.section };
      bytes = take r.size r.packet.items;
      window = r.ahead;
      ended = r.ended;
    } };

    ghost invariant = { λ r.
        (vec_len r.packet ≡ most_captured) × (r.size ≤ most_captured)
        × (r.offset + r.room * 2 ^ 32 ≤ 2 ^ 56) };
}

impl NgReader {
    /// A reader through this window, in which nothing is used yet. It reads nothing. The room for a packet is made here, and no call after this
    /// one needs memory.
    pub fn begin(alloc: Global, window: Window) -> Result<NgReader, AllocError>
        requires { length window.used + most_captured ≤ window.room }
        ensures { IfOk result (λ r. r ≡ record { place = front_place; bytes = []; window = window; ended = None }) }
    {
        Ok(NgReader {
            section: Section::new(alloc)?,
            offset: 0,
            room: MOST_BLOCKS,
            packet: vec![in alloc; 0; MOST_CAPTURED as usize]?,
            size: 0,
            ahead: Ahead::new(window),
            ended: None,
        })
    }

    /// The captured bytes of the packet that was answered last; none after any other answer.
    pub fn bytes(&self) -> &[u8]
        ensures { result.now ≡ self.now.bytes }
    {
        &self.packet[..self.size]
    }

    /// Reads on to the next packet. Once it has answered anything else it reads no more, and answers the same.
    pub fn next<S: Source>(&mut self, source: &mut S) -> NgNext
        ensures packet { self.old.ended ≡ None → (xs : List ℕ) → Pending self.old.window (S.known source.old).left xs
            → Answers result (next_at self.old.place xs) self.new (S.known source.new).left }
        ensures ends { self.old.ended ≡ None → Ends result self.new }
        ensures again { ForSome self.old.ended (λ why.
            (result ≡ why) × (self.new ≡ self.old) × (source.new ≡ source.old)) }
        ensures faults { self.old.ended ≡ None
            → Counts (result ≡ ReadFault) (S.known source.old).faults (S.known source.new).faults }
    {
        match self.ended {
            Some(why) => why,
            None => self.read_on(source),
        }
    }

    // Reads on to the next packet, of a reader that hasn't ended.
    fn read_on<S: Source>(&mut self, source: &mut S) -> NgNext
        requires { self.old.ended ≡ None }
        ensures packet { (xs : List ℕ) → Pending self.old.window (S.known source.old).left xs
            → Answers result (next_at self.old.place xs) self.new (S.known source.new).left }
        ensures ends { Ends result self.new }
        ensures faults { Counts (result ≡ ReadFault) (S.known source.old).faults (S.known source.new).faults }
    {
        loop {
            let offset = self.offset;
            match self.step(source) {
                Ok(Some(head)) => {
                    return NgNext::Whole {
                        ms: head.ms,
                        link: head.link,
                        offset,
                    };
                }
                Ok(None) => {}
                Err(stop) => {
                    let why = stop.said();
                    self.ended = Some(why);
                    return why;
                }
            }
        }
    }

    // Reads a block, if one follows and may follow: the packet that it carries.
    fn step<S: Source>(&mut self, source: &mut S) -> Result<Option<PacketHead>, Stop>
        ensures steps { (xs : List ℕ) → Pending self.old.window (S.known source.old).left xs
            → Steps result self.old xs self.new (S.known source.new).left }
        ensures bytes { Keeps result self.old self.new }
        ensures faults { Counts (result ≡ Err stop.ReadFault) (S.known source.old).faults (S.known source.new).faults }
    {
        self.size = 0;
        let mut first = [0; 8];
        let n = self.ahead.fill(source, &mut first, 8)?;
        if n == 0 {
            return Err(self.at_end());
        }
        let offset = self.offset;
        if self.room == 0 {
            return Err(Stop::TooMany { offset });
        }
        let (head, size) = read_block(
            source,
            &mut self.ahead,
            &mut self.section,
            &mut self.packet,
            offset,
            &first[..n],
        )?;
        self.offset += size as u64;
        self.room -= 1;
        match head {
            Some(head) => {
                self.size = head.captured as usize;
                Ok(Some(head))
            }
            None => Ok(None),
        }
    }

    // What is answered where no byte is left: a capture has a block.
    fn at_end(&self) -> Stop
        ensures { result ≡ at_end self.now.place.section self.now.place.offset }
    {
        if self.section.has_begun() {
            Stop::End
        } else {
            Stop::Truncated {
                offset: self.offset,
            }
        }
    }
}
