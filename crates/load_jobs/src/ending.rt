//! How a link ends.

ghost use Rattle.std.specs.Prelude.{◌≡◌};
ghost use Rattle.load_jobs.specs.Ends.{IsEndOfReading, IsEndOfSummary, is_of_dump, refusal_of_end};

use crate::reading::ReadingEnd;
use load_session::DumpSummary;
use refusals::{BadKind, Refusal, Which};
use space_packet::dump::Why;

/// How a link ended. A batch that was refused is reported in place of what would follow.
#[derive(Drop)]
pub enum LinkEnd {
    /// All packets of its dump were sent, and no octet is left.
    Whole(DumpSummary),
    /// The octets from a place on begin with no packet. All packets before it were sent.
    Rest { at: u64, kind: BadKind },
    /// A read of its source failed. The packets that were read were sent, unless the last batch was refused so.
    Unread { refused: Option<Refusal> },
    /// Its dump is longer than a dump may be. The packets within the limit were sent.
    TooLong,
    /// A batch was refused, or there was no memory.
    Refused(Refusal),
}

impl LinkEnd {
    /// The end of a link that reads no more, by what became of the sending.
    pub(crate) fn of_reading(end: ReadingEnd, sent: Result<DumpSummary, Refusal>) -> LinkEnd
        ensures { IsEndOfReading end sent result }
    {
        match sent {
            Ok(summary) => match end {
                ReadingEnd::NoMore => LinkEnd::of_summary(summary),
                ReadingEnd::Failed => LinkEnd::Unread { refused: None },
                ReadingEnd::TooLong => LinkEnd::TooLong,
            },
            Err(refusal) => match end {
                ReadingEnd::Failed => LinkEnd::Unread {
                    refused: Some(refusal),
                },
                ReadingEnd::NoMore | ReadingEnd::TooLong => LinkEnd::Refused(refusal),
            },
        }
    }

    /// The end of a link all of whose packets were sent.
    fn of_summary(summary: DumpSummary) -> LinkEnd
        ensures { IsEndOfSummary summary result }
    {
        let at = summary.at as u64;
        match summary.why {
            Why::End => LinkEnd::Whole(summary),
            Why::Version => LinkEnd::Rest {
                at,
                kind: BadKind::Version,
            },
            Why::Truncated => LinkEnd::Rest {
                at,
                kind: BadKind::Truncated,
            },
        }
    }

    /// Whether it is reported with the link's number: where something is wrong with the dump itself.
    pub fn is_of_dump(&self) -> bool
        ensures { result ≡ is_of_dump self.now }
    {
        matches!(self, LinkEnd::Rest { .. } | LinkEnd::TooLong)
    }

    /// The refusal that is reported of it.
    pub fn into_refusal(self) -> Option<Refusal>
        ensures { result ≡ refusal_of_end self }
    {
        match self {
            LinkEnd::Whole(_) => None,
            LinkEnd::Rest { at, kind } => Some(Refusal::BadPacket { at, kind }),
            LinkEnd::Unread { refused: None } => Some(Refusal::ReadFault),
            LinkEnd::Unread {
                refused: Some(refusal),
            } => Some(refusal),
            LinkEnd::TooLong => Some(Refusal::Limit {
                which: Which::DumpOctets,
                number: Which::DumpOctets.limit(),
            }),
            LinkEnd::Refused(refusal) => Some(refusal),
        }
    }
}
