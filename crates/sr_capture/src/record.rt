ghost use Rattle.std.specs.Prelude.{◌≡◌};
ghost use Rattle.sr_capture.specs.Record.{classic_record, ng_record};

use crate::CaptureRefusal;
use sr_pcap::Next;
use sr_pcapng::NgNext;

/// What a reader answers when it is asked for the next record.
#[derive(Clone, Copy, Debug)]
pub enum Record {
    /// A record is whole.
    Whole {
        /// When it was captured, in whole milliseconds.
        ms: u64,
        /// The link type of its frame.
        link: u16,
        /// Where it begins, in bytes from the capture's begin.
        offset: u64,
    },
    /// No whole record comes: the capture has ended, or is refused.
    Over(Option<CaptureRefusal>),
    /// The source failed.
    Failed,
}

impl Record {
    /// What comes next in a classic capture of this link type.
    pub fn of_classic(next: Next, link: u16) -> Record
        ensures { result ≡ classic_record next link }
    {
        match next {
            Next::Whole { ms, offset } => Record::Whole { ms, link, offset },
            Next::End => Record::Over(None),
            Next::Truncated { offset } => Record::Over(Some(CaptureRefusal::Cut { offset })),
            Next::ReadFault => Record::Failed,
            Next::TooLong { offset, .. } => Record::Over(Some(CaptureRefusal::TooLong { offset })),
        }
    }

    /// What comes next in a pcapng capture.
    pub fn of_ng(next: NgNext) -> Record
        ensures { result ≡ ng_record next }
    {
        match next {
            NgNext::Whole { ms, link, offset } => Record::Whole { ms, link, offset },
            NgNext::End => Record::Over(None),
            NgNext::Truncated { offset } => Record::Over(Some(CaptureRefusal::Cut { offset })),
            NgNext::ReadFault => Record::Failed,
            NgNext::TooLong { offset, .. } => {
                Record::Over(Some(CaptureRefusal::TooLong { offset }))
            }
            NgNext::Block { offset } => Record::Over(Some(CaptureRefusal::Block { offset })),
            NgNext::Magic => Record::Over(Some(CaptureRefusal::Magic)),
            NgNext::Major => Record::Over(Some(CaptureRefusal::Major)),
            NgNext::TooMany { offset } => Record::Over(Some(CaptureRefusal::TooMany { offset })),
        }
    }
}
