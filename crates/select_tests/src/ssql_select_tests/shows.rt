//! What SHOW prints.

use super::forms::{all_parts, packet_names, source_of_packets};
use crate::ends::none_other;
use crate::mem_source::MemSource;
use arch_types::name::Names;
use arch_types::row_fault::RowFault;
use arch_types::spans::Span;
use line_buffer::LineBuffer;
use outer_traits::mem_sink::MemSink;
use ssql_select::show::{ShowLine, partition_lines, print_show};
use std::alloc::Global;
use std::test::Fail;

/// Prints lines beside these packet names. Whether all was written.
fn print_lines(alloc: Global, names: &Names, lines: &[ShowLine], sink: &mut MemSink) -> bool {
    let Ok(mut line_buffer) = LineBuffer::new(alloc) else {
        return false;
    };
    print_show(alloc, names, lines, &mut line_buffer, sink).is_ok()
        && line_buffer.finish(sink).is_ok()
}

/// Whether this is printed of lines.
fn are_printed(alloc: Global, lines: &[ShowLine], want: &[u8]) -> bool {
    let mut sink = MemSink::new(alloc);
    match packet_names(alloc) {
        Ok(names) => {
            print_lines(alloc, &names, lines, &mut sink) && sink.octets.as_slice() == want
        }
        Err(_) => false,
    }
}

/// The partitions of a table in the order that `all_parts` has them, with how many rows they have below a front.
fn lines_of_table(
    alloc: Global,
    source: &mut MemSource,
    table: u8,
    front: u64,
) -> Result<Vec<ShowLine>, RowFault> {
    let parts = all_parts(alloc)?;
    partition_lines(alloc, source, table, parts.as_slice(), front)
}

/// Whether this is printed of a table at a front.
fn is_printed(alloc: Global, source: &mut MemSource, table: u8, front: u64, want: &[u8]) -> bool {
    match lines_of_table(alloc, source, table, front) {
        Ok(lines) => are_printed(alloc, lines.as_slice(), want),
        Err(_) => false,
    }
}

/// A table, a front, and what is printed of the partitions, which are given in no order and one of them twice.
type Case = (u8, u64, &'static str);

const CASES: &[Case] = &[
    (
        0,
        6,
        "partition 1970/002 B 1\npartition 1970/001 A 1\npartition 1970/002 A 1\npartition 1970/001 B 1\npartition 1970/001 A 1\nshow 5\n",
    ),
    // rows from the front on aren't counted
    (
        0,
        3,
        "partition 1970/002 B 1\npartition 1970/001 A 1\npartition 1970/001 A 1\nshow 3\n",
    ),
    (
        1,
        6,
        "partition 1970/002 A 1\npartition 1970/001 B 1\nshow 2\n",
    ),
    (2, 6, "show 0\n"),
];

fn cases() -> &'static [Case] {
    CASES
}

/// The place of the first case of which something else is printed.
fn other_shown(alloc: Global, source: &mut MemSource, cases: &[Case]) -> Option<usize> {
    let mut place = 0usize;
    for (table, front, want) in cases {
        if !is_printed(alloc, source, *table, *front, want.as_bytes()) {
            return Some(place);
        }
        place = place.saturating_add(1);
    }
    None
}

/// The same over a source of the packets.
fn other_case(alloc: Global) -> Option<usize> {
    match source_of_packets(alloc, true) {
        Some(mut source) => other_shown(alloc, &mut source, cases()),
        None => Some(0),
    }
}

#[test]
fn partitions_are_shown(rt: HostRuntime) -> Result<(), Fail> {
    none_other(other_case(rt.alloc()))
}

/// Two records; no packet name has the second one's number.
const RECORDS: &[ShowLine] = &[
    ShowLine::Histogram {
        pname: 1,
        span: Span {
            first: -5,
            last: 60_000,
            count: 2,
        },
    },
    ShowLine::Histogram {
        pname: 9,
        span: Span {
            first: 0,
            last: 0,
            count: 18_446_744_073_709_551_615,
        },
    },
];

fn records() -> &'static [ShowLine] {
    RECORDS
}

/// What is printed of them.
fn text_of_records() -> &'static [u8] {
    b"histogram B -5 60000 2\nhistogram  0 0 18446744073709551615\nshow 2\n"
}

#[test]
fn records_are_shown(rt: HostRuntime) {
    assert!(rt; are_printed(rt.alloc(), records(), text_of_records()));
}
