ghost use Rattle.std.specs.Prelude.{◌≡◌, ◌≢◌, ◌⊎◌, ℕ, ◌+◌, ◌≤◌, List, [], length, take, drop, None, Err, IfOk};
ghost use Rattle.std.specs.Option.{ForSome};
ghost use Rattle.sr_io.specs.Faults.{Counts};
ghost use Rattle.sr_io.specs.Window.{Pending, new_window, passed};
ghost use Rattle.sr_pcap.specs.Format.{most_captured};
ghost use Rattle.sr_pcap.specs.Reader.{Steps, Answers, Begins, Looks, Found, ended_by, reader_room, with_record, with_window};
ghost use Rattle.sr_pcap.specs.declared.begin_refusal.BeginRefusal.TheVariants as begin;
ghost use Rattle.sr_pcap.specs.declared.next.Next.TheVariants.{Whole, ReadFault};

use crate::format::{CAPTURE_HEADER, Format};
use crate::record_header::{MOST_CAPTURED, RECORD_HEADER, RecordHeader};
use crate::{BeginRefusal, Next};
use sr_io::{Source, Window};
use std::alloc::{AllocError, Global};
use std::marker::Model;

// How many bytes a reader has room for: two of the longest records, since the last one stays while the next is read.
const ROOM: usize = 2 * (RECORD_HEADER + MOST_CAPTURED as usize);

/// Reads a capture, a record at a time. The source is handed to each call, and must be the same one each time. It is read ahead.
#[derive(Debug, Drop)]
pub struct Reader {
    format: Format,
    offset: u64,
    window: Window,
    // How many captured bytes the last whole record has. They are the last ones that were used.
    size: usize,
    ended: Option<Next>,
}

impl Model for Reader {
    ghost use Rattle.std.specs.Prelude.{◌≡◌, ◌-◌, ◌≤◌, drop, length};
    ghost use Rattle.sr_pcap.specs.Reader.{ReaderView, longest_record, reader_room};

    ghost Value = { ReaderView };

    ghost view = { λ r. record {
      format = r.format;
      offset = r.offset;
      bytes = drop (length r.window.used - r.size) r.window.used;
      window = r.window;
      ended = r.ended;
    } };

    ghost invariant = { λ r. (r.size ≤ length r.window.used) × (length r.window.used ≤ longest_record) × (r.window.room ≡ reader_room) };
}

impl Reader {
    /// A window with room for two of the longest records, as a reader needs it.
    pub fn window(alloc: Global) -> Result<Window, AllocError>
        ensures { IfOk result (λ w. w ≡ new_window reader_room) }
    {
        Window::new(alloc, ROOM)
    }

    /// Reads the 24 bytes of a capture's header, and then judges them. The room for the bytes is made first, and no call after this one needs
    /// memory.
    pub fn begin<S: Source>(alloc: Global, source: &mut S) -> Result<Reader, BeginRefusal>
        ensures offset { (n : ℕ) → result ≡ Err (begin.Truncated n) → n ≡ 0 }
        ensures header { ForSome (S.known source.old).left (λ xs. Begins result xs (S.known source.new).left) }
        ensures link { IfOk result (λ r. (r.format.link ≡ 1) ⊎ (r.format.link ≡ 101)) }
        ensures fresh { IfOk result (λ r. (r.offset ≡ 24) × (r.bytes ≡ []) × (r.ended ≡ None)) }
        ensures faults { Counts (result ≡ Err begin.ReadFault) (S.known source.old).faults (S.known source.new).faults }
        ensures memory { result ≡ Err begin.Memory → source.new ≡ source.old }
    {
        let window = Reader::window(alloc)?;
        Reader::begin_through(window, source)
    }

    /// Reads the header through a window that may have some of the capture's first bytes already. It takes no memory.
    pub fn begin_through<S: Source>(
        mut window: Window,
        source: &mut S,
    ) -> Result<Reader, BeginRefusal>
        requires used { window.used ≡ [] }
        requires room { window.room ≡ reader_room }
        ensures offset { (n : ℕ) → result ≡ Err (begin.Truncated n) → n ≡ 0 }
        ensures header { (xs : List ℕ) → Pending window (S.known source.old).left xs → Begins result xs (S.known source.new).left }
        ensures link { IfOk result (λ r. (r.format.link ≡ 1) ⊎ (r.format.link ≡ 101)) }
        ensures fresh { IfOk result (λ r. (r.offset ≡ 24) × (r.bytes ≡ []) × (r.ended ≡ None)) }
        ensures faults { Counts (result ≡ Err begin.ReadFault) (S.known source.old).faults (S.known source.new).faults }
        ensures memory { result ≢ Err begin.Memory }
    {
        window.fill(source, CAPTURE_HEADER)?;
        let format = Format::of_capture(window.unread())?;
        window.pass(CAPTURE_HEADER);
        Ok(Reader {
            format,
            offset: 24,
            window,
            size: 0,
            ended: None,
        })
    }

    /// The link type: 1 (Ethernet) or 101 (raw IP).
    pub fn link(&self) -> u16
        ensures { result ≡ self.now.format.link }
    {
        self.format.link
    }

    /// The captured bytes of the last whole record; none before the first.
    pub fn bytes(&self) -> &[u8]
        ensures { result.now ≡ self.now.bytes }
    {
        let used = self.window.used();
        &used[used.len() - self.size..]
    }

    /// Reads the next record. Once it has answered anything else than a whole record it reads no more, and answers the same.
    pub fn next<S: Source>(&mut self, source: &mut S) -> Next
        ensures record { self.old.ended ≡ None → (xs : List ℕ) → Pending self.old.window (S.known source.old).left xs
            → Answers result self.old.format self.old.offset xs self.new (S.known source.new).left }
        ensures step { self.old.ended ≡ None → Steps result self.old self.new }
        ensures again { ForSome self.old.ended (λ why. (result ≡ why) × (self.new ≡ self.old) × (source.new ≡ source.old)) }
        ensures faults { self.old.ended ≡ None → Counts (result ≡ ReadFault) (S.known source.old).faults (S.known source.new).faults }
    {
        match self.ended {
            Some(why) => why,
            None => self.read_record(source),
        }
    }

    // Reads the next record, of a reader that hasn't ended.
    fn read_record<S: Source>(&mut self, source: &mut S) -> Next
        requires { self.old.ended ≡ None }
        ensures record { (xs : List ℕ) → Pending self.old.window (S.known source.old).left xs
            → Answers result self.old.format self.old.offset xs self.new (S.known source.new).left }
        ensures step { Steps result self.old self.new }
        ensures faults { Counts (result ≡ ReadFault) (S.known source.old).faults (S.known source.new).faults }
    {
        match self.look(source) {
            Ok(header) => self.take(header),
            Err(why) => self.end(why),
        }
    }

    // Reads on until the next record is there: what its header says, or why there is no whole one.
    fn look<S: Source>(&mut self, source: &mut S) -> Result<RecordHeader, Next>
        ensures looks { (xs : List ℕ) → Pending self.old.window (S.known source.old).left xs
            → Looks result self.old.format self.old.offset xs (S.known source.new).left × Pending self.new.window (S.known source.new).left xs }
        ensures found { Found result self.old.offset self.new.window }
        ensures same { self.new ≡ with_window self.old self.new.window }
        ensures faults { Counts (result ≡ Err ReadFault) (S.known source.old).faults (S.known source.new).faults }
    {
        self.window.fill(source, RECORD_HEADER)?;
        let header = self
            .format
            .record_header(self.offset, self.window.unread())?;
        let whole = RECORD_HEADER + header.size;
        self.window.fill(source, whole)?;
        if self.window.unread().len() < whole {
            return Err(Next::Truncated {
                offset: self.offset,
            });
        }
        Ok(header)
    }

    // Uses the record with this header, which is there.
    fn take(&mut self, header: RecordHeader) -> Next
        requires there { 16 + header.size ≤ length self.old.window.unread }
        requires few { header.size ≤ most_captured }
        requires going { self.old.ended ≡ None }
        ensures whole { result ≡ Whole header.ms self.old.offset }
        ensures taken { self.new ≡ with_record self.old (take header.size (drop 16 self.old.window.unread)) (passed (16 + header.size) self.old.window) }
    {
        let offset = self.offset;
        let whole = RECORD_HEADER + header.size;
        self.window.pass(whole);
        self.size = header.size;
        self.offset = offset.saturating_add(whole as u64);
        Next::Whole {
            ms: header.ms,
            offset,
        }
    }

    // Answers this, from now on.
    fn end(&mut self, why: Next) -> Next
        ensures same { result ≡ why }
        ensures ended { self.new ≡ ended_by self.old self.old.window why }
    {
        self.ended = Some(why);
        why
    }
}
