//! Selections of a source that fails, and to a sink that fails.

use super::forms::{Ending, answer, source_of_packets};
use crate::ends::none_other;
use crate::mem_source::MemSource;
use outer_traits::mem_sink::MemSink;
use std::alloc::Global;
use std::test::Fail;

/// How many calls of the source go well before one fails, the write that fails where one does, a query, and how it ends.
type Case = (u64, &'static [u64], &'static str, Ending);

/// LIMIT leaves a later day, and so its fault, unread.
const CASES: &[Case] = &[
    (0, &[], "SELECT * FROM MERGE(tm, copy)", Ending::Refused),
    (1, &[], "SELECT * FROM MERGE(tm, copy)", Ending::Refused),
    (4, &[], "SELECT * FROM MERGE(tm, copy)", Ending::Refused),
    (2, &[], "SELECT seqNum FROM tm LIMIT 2", Ending::Whole),
    (100, &[1], "SELECT * FROM tm", Ending::Cut),
];

fn cases() -> &'static [Case] {
    CASES
}

/// Whether a query ends so. Something is printed where it ends whole, else nothing.
fn ends_so(
    alloc: Global,
    source: &mut MemSource,
    sink: &mut MemSink,
    query: &str,
    want: Ending,
) -> bool {
    let ending = answer(alloc, query, source, sink);
    ending == want && sink.octets.is_empty() == (want != Ending::Whole)
}

/// Whether a query ends so, to a sink of which these writes fail.
fn ends_in_sink(
    alloc: Global,
    source: &mut MemSource,
    writes: &[u64],
    query: &str,
    want: Ending,
) -> bool {
    match Vec::from_slice(alloc, writes) {
        Ok(writes) => {
            let mut sink = MemSink::failing(alloc, writes);
            ends_so(alloc, source, &mut sink, query, want)
        }
        Err(_) => false,
    }
}

/// The place of the first query that ends otherwise.
fn other_ending(alloc: Global, source: &mut MemSource, cases: &[Case]) -> Option<usize> {
    let mut place = 0usize;
    for (calls, writes, query, want) in cases {
        source.fail_after(*calls);
        if !ends_in_sink(alloc, source, writes, query, *want) {
            return Some(place);
        }
        place = place.saturating_add(1);
    }
    None
}

/// The same over a source of the packets.
fn other_case(alloc: Global, is_known: bool) -> Option<usize> {
    match source_of_packets(alloc, is_known) {
        Some(mut source) => other_ending(alloc, &mut source, cases()),
        None => Some(0),
    }
}

#[test]
fn sources_that_tell_their_rows(rt: HostRuntime) -> Result<(), Fail> {
    none_other(other_case(rt.alloc(), true))
}

#[test]
fn sources_that_do_not(rt: HostRuntime) -> Result<(), Fail> {
    none_other(other_case(rt.alloc(), false))
}
