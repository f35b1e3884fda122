//! What no clause says: that calls succeed where memory is ample, and worked rows.

ghost use Rattle.std.specs.Prelude.{[], ◌∷◌, IfOk, IfSome};
ghost use Rattle.histogram.specs.Times.{AreOneSpan, IsHistogramOf};

use crate::parts::none_other;
use arch_types::spans::Span;
use histogram::histogram::{Histogram, NamedTime};
use histogram::one_span::{grown, span_of_time};
use std::alloc::{AllocError, Global};
use std::test::Fail;

/// The histogram of these times, added one after the other.
fn histogram_of(alloc: Global, times: &[NamedTime]) -> Result<Histogram, AllocError>
    ensures times { IfOk result (λ histogram. IsHistogramOf histogram times.now) }
{
    let mut histogram = Histogram::new(alloc);
    for at in times {
        histogram.reserve(1)?;
        histogram.add(at.pname, at.time);
    }
    Ok(histogram)
}

/// The number of a packet name, and a time of it, in milliseconds.
type Time = (u16, i64);

fn named(alloc: Global, times: &[Time]) -> Result<Vec<NamedTime>, AllocError> {
    let mut all = Vec::new(alloc);
    for (pname, time) in times {
        all.push(NamedTime {
            pname: *pname,
            time: *time,
        })?;
    }
    Ok(all)
}

/// A record: the first time, the last, and how many.
type Record = (i64, i64, u64);

/// Times in the order in which they are added, a packet name, and its records.
type Case = (&'static [Time], u16, &'static [Record]);

/// A minute, and a millisecond more than one: each order of three times, between those of other names.
const ORDERS: &[&[Time]] = &[
    &[(7, 0), (8, -5), (7, 60_000), (6, 60_001), (7, 120_001)],
    &[(7, 0), (8, -5), (7, 120_001), (6, 60_001), (7, 60_000)],
    &[(7, 60_000), (8, -5), (7, 0), (6, 60_001), (7, 120_001)],
    &[(7, 60_000), (8, -5), (7, 120_001), (6, 60_001), (7, 0)],
    &[(7, 120_001), (8, -5), (7, 0), (6, 60_001), (7, 60_000)],
    &[(7, 120_001), (8, -5), (7, 60_000), (6, 60_001), (7, 0)],
];

/// A function, as those below are, so that they stand in no goal of its callers.
fn orders() -> &'static [&'static [Time]] {
    ORDERS
}

const OF_EACH_ORDER: &[Record] = &[(0, 60_000, 2), (120_001, 120_001, 1)];

fn of_each_order() -> &'static [Record] {
    OF_EACH_ORDER
}

const CASES: &[Case] = &[
    // many of one time, and a name without any
    (
        &[(1, -60_000), (1, 0), (1, -60_000), (1, 0), (1, -60_000)],
        1,
        &[(-60_000, 0, 5)],
    ),
    (
        &[(1, -60_000), (1, 0), (1, -60_000), (1, 0), (1, -60_000)],
        0,
        &[],
    ),
    // a time between two records
    (
        &[(3, 0), (3, 120_000), (3, 300_000), (3, 60_000)],
        3,
        &[(0, 120_000, 3), (300_000, 300_000, 1)],
    ),
    // the least and the greatest times
    (
        &[(3, i64::MAX), (3, i64::MIN), (3, i64::MIN + 60_000)],
        3,
        &[(i64::MIN, i64::MIN + 60_000, 2), (i64::MAX, i64::MAX, 1)],
    ),
];

fn cases() -> &'static [Case] {
    CASES
}

fn are_records(spans: &[Span], want: &[Record]) -> bool {
    for (span, want) in spans.iter().zip(want) {
        if (span.first, span.last, span.count) != *want {
            return false;
        }
    }
    spans.len() == want.len()
}

fn has_records(histogram: &Histogram, pname: u16, want: &[Record]) -> Result<bool, AllocError> {
    let spans = histogram.records(pname)?;
    Ok(are_records(spans.as_slice(), want))
}

fn gives(alloc: Global, times: &[Time], pname: u16, want: &[Record]) -> Result<bool, AllocError> {
    let times = named(alloc, times)?;
    let histogram = histogram_of(alloc, times.as_slice())?;
    if !has_records(&histogram, pname, want)? {
        return Ok(false);
    }
    let alone = histogram.of_name(pname)?;
    has_records(&alone, pname, want)
}

/// Two times of a packet name that make one record, told at once.
type Pair = (u16, i64, i64);

/// Pairs in the order in which they are told, a packet name, and its records.
type PairCase = (&'static [Pair], u16, &'static [Record]);

const PAIR_CASES: &[PairCase] = &[
    // the second time before the first, at the same moment, and a minute behind it; another name between
    (
        &[(7, 60_000, 0), (8, 5, 5), (7, 300_000, 360_000)],
        7,
        &[(0, 60_000, 2), (300_000, 360_000, 2)],
    ),
    // the gap between two records is closed
    (
        &[(7, 0, 60_000), (7, 180_000, 180_000), (7, 120_000, 120_000)],
        7,
        &[(0, 180_000, 6)],
    ),
    // a record within another one, and one that meets it in part
    (
        &[(7, 0, 60_000), (7, 10, 20), (7, 30, 60_030)],
        7,
        &[(0, 60_030, 6)],
    ),
];

fn pair_cases() -> &'static [PairCase] {
    PAIR_CASES
}

/// The record of two times. None where they are more than a minute apart.
fn span_of_pair(first: i64, second: i64) -> Option<Span>
    ensures { IfSome result (λ span. AreOneSpan span (first ∷ second ∷ [])) }
{
    grown(span_of_time(first), second)
}

/// The histogram of pairs. None where one of them isn't one record.
fn histogram_of_pairs(alloc: Global, pairs: &[Pair]) -> Result<Option<Histogram>, AllocError> {
    let mut histogram = Histogram::new(alloc);
    for (pname, first, second) in pairs {
        match span_of_pair(*first, *second) {
            Some(span) => histogram.add_span(*pname, span)?,
            None => return Ok(None),
        }
    }
    Ok(Some(histogram))
}

fn other_pairs(
    alloc: Global,
    cases: &[PairCase],
) -> Result<Option<(&'static str, usize)>, AllocError> {
    let mut place = 0usize;
    for (pairs, pname, want) in cases {
        match histogram_of_pairs(alloc, pairs)? {
            Some(histogram) if has_records(&histogram, *pname, want)? => {}
            _ => return Ok(Some(("records of pairs", place))),
        }
        place = place.saturating_add(1);
    }
    Ok(None)
}

fn other_order(
    alloc: Global,
    orders: &[&'static [Time]],
) -> Result<Option<(&'static str, usize)>, AllocError> {
    let mut place = 0usize;
    for times in orders {
        if !gives(alloc, times, 7, of_each_order())? {
            return Ok(Some(("each order", place)));
        }
        place = place.saturating_add(1);
    }
    Ok(None)
}

fn other_case(alloc: Global, cases: &[Case]) -> Result<Option<(&'static str, usize)>, AllocError> {
    let mut place = 0usize;
    for (times, pname, want) in cases {
        if !gives(alloc, times, *pname, want)? {
            return Ok(Some(("records", place)));
        }
        place = place.saturating_add(1);
    }
    Ok(None)
}

#[test]
fn records_of_each_order(rt: HostRuntime) -> Result<(), Fail> {
    none_other(other_order(rt.alloc(), orders())?)
}

#[test]
fn records_told_at_once(rt: HostRuntime) -> Result<(), Fail> {
    none_other(other_pairs(rt.alloc(), pair_cases())?)
}

#[test]
fn times_more_than_a_minute_apart(rt: HostRuntime) {
    assert!(rt; grown(span_of_time(0), 60_001).is_none());
    assert!(rt; grown(span_of_time(0), -60_001).is_none());
}

#[test]
fn records(rt: HostRuntime) -> Result<(), Fail> {
    none_other(other_case(rt.alloc(), cases())?)
}
