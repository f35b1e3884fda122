//! What is printed of selections.

use super::forms::{Ending, answer, source_of_packets};
use crate::ends::none_other;
use crate::mem_source::MemSource;
use outer_traits::mem_sink::MemSink;
use std::alloc::{AllocError, Global};
use std::test::Fail;

/// A query, and what is printed.
type Case = (&'static str, &'static str);

const CASES: &[Case] = &[
    (
        "SELECT seqNum, pname FROM tm",
        "114691 B\n114689 A\n114690 B\n114693 A\nselect 4\n",
    ),
    (
        "SELECT seqNum, pname FROM tm ORDER DESC",
        "114693 A\n114690 B\n114689 A\n114691 B\nselect 4\n",
    ),
    ("SELECT seqNum FROM tm LIMIT 0", "select 0\n"),
    (
        "SELECT seqNum FROM tm ORDER DESC LIMIT 1",
        "114693\nselect 1\n",
    ),
    (
        "SELECT seqNum FROM MERGE(tm, tm) LIMIT 3",
        "114691\n114691\n114689\nselect 3\n",
    ),
    (
        "SELECT seqNum, pname FROM MERGE(copy, tm)",
        "114691 B\n114689 B\n114689 A\n114690 B\n114692 A\n114693 A\nselect 6\n",
    ),
    (
        "SELECT seqNum, pname FROM MERGE(copy, tm) ORDER DESC LIMIT 5",
        "114693 A\n114692 A\n114690 B\n114689 A\n114689 B\nselect 5\n",
    ),
    (
        "SELECT * FROM tm WHERE seqNum = 114691",
        "1970-01-01T00:00:00.002 114691 1970-01-01T00:00:00.002 1 B 1 7 0001c003000000\nselect 1\n",
    ),
    (
        "SELECT seqNum FROM tm WHERE gentime < '1970-01-01T00:00:00.005'",
        "114691\nselect 1\n",
    ),
    (
        "SELECT seqNum FROM tm WHERE gentime <= '1970-01-02T00:00:00.007' AND gentime > 5",
        "114690\n114693\nselect 2\n",
    ),
    (
        "SELECT seqNum FROM tm WHERE gentime >= 86400000 AND gentime < 86400001",
        "114690\nselect 1\n",
    ),
    (
        "SELECT seqNum FROM tm WHERE pname = 'A' OR gentime = 2",
        "114691\n114689\n114693\nselect 3\n",
    ),
    (
        "SELECT seqNum FROM tm WHERE NOT pname IN ('A', 'Z')",
        "114691\n114690\nselect 2\n",
    ),
    ("SELECT seqNum FROM tm WHERE pname = 'Z'", "select 0\n"),
    (
        "SELECT link, length, rectime FROM copy WHERE apid = 1 AND (length < 8 OR link <> 1) LIMIT 1",
        "1 7 1970-01-01T00:00:00.005\nselect 1\n",
    ),
];

fn cases() -> &'static [Case] {
    CASES
}

/// Whether a query of a source prints this.
fn prints(alloc: Global, source: &mut MemSource, query: &str, want: &[u8]) -> bool {
    let mut sink = MemSink::new(alloc);
    let ending = answer(alloc, query, source, &mut sink);
    ending == Ending::Whole && sink.octets.as_slice() == want
}

/// The first query of a source that prints something else.
fn other_answer(alloc: Global, source: &mut MemSource, cases: &[Case]) -> Option<&'static str> {
    for (query, want) in cases {
        if !prints(alloc, source, query, want.as_bytes()) {
            return Some(*query);
        }
    }
    None
}

/// The same over a source of the packets.
fn other_case(alloc: Global) -> Option<&'static str> {
    match source_of_packets(alloc, true) {
        Some(mut source) => other_answer(alloc, &mut source, cases()),
        None => Some("no source"),
    }
}

#[test]
fn queries_are_answered(rt: HostRuntime) -> Result<(), Fail> {
    none_other(other_case(rt.alloc()))
}

/// Whether a query prints this of a source of one packet, with the packet name A.
fn prints_of_one(alloc: Global, rectime: i64, packet: &[u8], query: &str, want: &[u8]) -> bool {
    let mut source = MemSource::new(alloc, true);
    match source.add(alloc, 0, 0, rectime, packet) {
        Ok(true) => prints(alloc, &mut source, query, want),
        _ => false,
    }
}

/// A packet of APID 100 with a generation time of its own.
fn timed_packet() -> &'static [u8] {
    &[
        0x08, 0x64, 0xc0, 0x00, 0x00, 0x07, 0x00, 0x00, 0x00, 0x01, 0x80, 0x00, 0x2a, 0xfe,
    ]
}

fn timed_text() -> &'static [u8] {
    b"1970-01-01T00:00:01.500 140820480 1970-01-01T00:00:09.000 1 A 100 14 0864c00000070000000180002afe\nselect 1\n"
}

#[test]
fn all_columns_of_a_packet(rt: HostRuntime) {
    assert!(rt;
        prints_of_one(
            rt.alloc(),
            9_000,
            timed_packet(),
            "SELECT * FROM tm",
            timed_text()
        )
    );
}

/// Adds a text, another one 294 times, and a third.
fn add_long(text: &mut Vec<u8>, front: &[u8], piece: &[u8], back: &[u8]) -> Result<(), AllocError> {
    text.extend_from_slice(front)?;
    for _ in 0..294 {
        text.extend_from_slice(piece)?;
    }
    text.extend_from_slice(back)
}

/// Whether a packet of 300 octets is printed, whose line doesn't fit the buffer.
fn prints_long(alloc: Global) -> bool {
    let mut packet = Vec::new(alloc);
    let mut text = Vec::new(alloc);
    add_long(&mut packet, &[0, 1, 0xc0, 9, 1, 37], &[0xab], &[]).is_ok()
        && add_long(&mut text, b"0001c0090125", b"ab", b"\nselect 1\n").is_ok()
        && prints_of_one(
            alloc,
            3,
            packet.as_slice(),
            "SELECT packet FROM tm",
            text.as_slice(),
        )
}

#[test]
fn a_line_beyond_the_buffer(rt: HostRuntime) {
    assert!(rt; prints_long(rt.alloc()));
}
