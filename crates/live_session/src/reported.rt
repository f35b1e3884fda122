//! What is reported of jobs that have ended.

ghost use Rattle.std.specs.Prelude.{◌≡◌, ◌≤◌, ◌+◌, length, vec_len};
ghost use Rattle.std.specs.List.{AllByRecursion};
ghost use Rattle.refusals.specs.Limits.{limit_of};
ghost use Rattle.refusals.specs.declared.refusal.Which.TheVariants as limits;
ghost use Rattle.live_session.specs.Outcome.{HasFewCounts, counts_of, reported_of, reported_of_others};

use load_jobs::LinkEnd;
use refusals::Refusal;

/// Why a load was refused.
#[derive(Debug, Drop)]
pub struct ReportedRefusal {
    pub refusal: Refusal,
    /// The link whose dump is too long, or has a rest that is no packet.
    pub link: Option<u16>,
}

/// What the dumps of links had together, those that were sent whole.
#[derive(Clone, Copy, Debug, Default)]
pub struct DumpCounts {
    /// All packets, idle ones counted too.
    pub packets: u64,
    pub idle: u64,
    /// The rows that the others are: one for each packet and table.
    pub routed: u64,
}

/// The refusal of the first job that was refused. Links come first, whose numbers rise from this one.
pub(crate) fn reported_of(
    link: u16,
    ends: Vec<LinkEnd>,
    others: Vec<Option<Refusal>>,
) -> Option<ReportedRefusal>
    requires numbers { link + vec_len ends ≤ limit_of limits.Links + 1 }
    ensures { result ≡ reported_of link ends.items others.items }
{
    let mut number = link;
    for end in ends {
        let link = if end.is_of_dump() { Some(number) } else { None };
        if let Some(refusal) = end.into_refusal() {
            return Some(ReportedRefusal { refusal, link });
        }
        number += 1;
    }
    reported_of_others(others)
}

/// That of the first reader or filler that was refused.
fn reported_of_others(others: Vec<Option<Refusal>>) -> Option<ReportedRefusal>
    ensures { result ≡ reported_of_others others.items }
{
    for other in others {
        if let Some(refusal) = other {
            return Some(ReportedRefusal {
                refusal,
                link: None,
            });
        }
    }
    None
}

/// What whole dumps had together.
pub(crate) fn counts_of(ends: &[LinkEnd]) -> DumpCounts
    requires few { AllByRecursion HasFewCounts ends.now }
    requires links { length ends.now ≤ limit_of limits.Dumps }
    ensures { result ≡ counts_of ends.now }
{
    let mut counts = DumpCounts::default();
    for end in ends {
        if let LinkEnd::Whole(summary) = end {
            counts.packets += summary.packets;
            counts.idle += summary.idle;
            counts.routed += summary.routed;
        }
    }
    counts
}
