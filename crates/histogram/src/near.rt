//! The records that are near times of their packet name.

ghost use Rattle.std.specs.Prelude.{◌≡◌, ◌+◌, ◌^◌, ◌<◌, ◌≤ℤ◌, None, [], ◌∷◌};
ghost use Rattle.std.specs.List.{AllByRecursion};
ghost use Rattle.std.specs.BTreeMap.Range.{entries_from};
ghost use Rattle.block_map.specs.Rising.{IsRising};
ghost use Rattle.histogram.specs.Times.{named_time_cmp};
ghost use Rattle.histogram.specs.Near.{is_apart, joined};
ghost use Rattle.histogram.specs.SpanEntries.{total, earliest_key, near_span, IsSpanEntry, HasPut, HasTakenNear};

use crate::histogram::NamedTime;
use arch_types::spans::Span;
use block_map::index::Index;

/// The longest distance of neighbours in one record, in milliseconds.
const GAP: i64 = 60_000;

/// What an index has of a record, under its packet name and its last time.
#[derive(Clone, Copy, Debug, PartialEq, Eq)]
pub(crate) struct SpanStart {
    /// The first time, in milliseconds.
    pub first: i64,
    /// How many times there are.
    pub count: u64,
}

impl SpanStart {
    /// The record that ends at this time.
    pub(crate) fn span(self, last: i64) -> Span
        ensures { result ≡ record { first = self.first; last = last; count = self.count } }
    {
        Span {
            first: self.first,
            last,
            count: self.count,
        }
    }
}

/// Whether a time is more than `GAP` after another.
pub(crate) fn is_apart(earlier: i64, later: i64) -> bool
    ensures { result ≡ is_apart earlier later }
{
    earlier < later.saturating_sub(GAP)
}

/// Two records as one.
pub(crate) fn joined(a: Span, b: Span) -> Span
    requires { a.count + b.count < 2 ^ 64 }
    ensures { result ≡ joined a b }
{
    Span {
        first: a.first.min(b.first),
        last: a.last.max(b.last),
        count: a.count + b.count,
    }
}

/// The least place of a record of a packet name that ends no more than `GAP` before times begin.
fn earliest_key(pname: u16, at: Span) -> NamedTime
    ensures { result ≡ earliest_key pname at }
{
    NamedTime {
        pname,
        time: at.first.saturating_sub(GAP),
    }
}

/// An entry's record, where it is of this packet name and begins no more than `GAP` after times end.
fn near_span(pname: u16, at: Span, last: NamedTime, start: SpanStart) -> Option<Span>
    ensures { result ≡ near_span pname at ((last, start) ∷ []) }
{
    if last.pname != pname {
        return None;
    }
    if is_apart(at.last, start.first) {
        None
    } else {
        Some(start.span(last.time))
    }
}

/// The first record of a packet name that is near times.
fn first_near(index: &Index<NamedTime, SpanStart>, pname: u16, at: Span) -> Option<Span>
    ensures { result ≡ near_span pname at (entries_from (named_time_cmp (earliest_key pname at)) index.now.entries) }
{
    let (last, start) = index.from_key(earliest_key(pname, at)).next()?;
    near_span(pname, at, *last, *start)
}

/// Takes out the records that are near times, and joins them with theirs.
pub(crate) fn take_near(index: &mut Index<NamedTime, SpanStart>, pname: u16, at: Span) -> Span
    requires ordered { at.first ≤ℤ at.last }
    requires rising { IsRising named_time_cmp index.old.entries }
    requires whole { AllByRecursion IsSpanEntry index.old.entries }
    requires small { total index.old.entries + at.count < 2 ^ 64 }
    ensures taken { HasTakenNear pname at index.old index.new result }
    ensures all { near_span pname at (entries_from (named_time_cmp (earliest_key pname at)) index.new.entries) ≡ None }
{
    let mut span = at;
    while let Some(near) = first_near(index, pname, at) {
        index.remove(NamedTime {
            pname,
            time: near.last,
        });
        span = joined(span, near);
    }
    span
}

/// Puts the times of one record among those of their packet name. Takes no memory.
pub(crate) fn put_span(index: &mut Index<NamedTime, SpanStart>, pname: u16, at: Span)
    requires ordered { at.first ≤ℤ at.last }
    requires rising { IsRising named_time_cmp index.old.entries }
    requires whole { AllByRecursion IsSpanEntry index.old.entries }
    requires small { total index.old.entries + at.count < 2 ^ 64 }
    requires room { 0 < index.old.room }
    ensures { HasPut pname at index.old index.new }
{
    let span = take_near(index, pname, at);
    let last = NamedTime {
        pname,
        time: span.last,
    };
    let start = SpanStart {
        first: span.first,
        count: span.count,
    };
    index.insert(last, start);
}
