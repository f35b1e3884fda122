//! Answers over three intervals, each as a set or as rows, and over no part.
ghost use Rattle.std.specs.Prelude.{IfOk, IfSome};
ghost use Rattle.std.specs.List.{AllByRecursion};
ghost use Rattle.param_segments.specs.Plans.{HasValuesOf};

use crate::parts::{
    Asked, AskedValues, Other, Packet, answer_over, are_raws, flight, none_other, part, rows_of,
};
use crate::texts::is_worked;
use arch_types::direction::Direction;
use asks::Answer;
use intervals::Interval;
use mdb_model::Mdb;
use param_segments::{Part, Parts};
use std::alloc::{AllocError, Global};
use std::test::*;

/// The bit of an interval in a mix, the interval and its packets.
type IntervalPackets = (u8, i64, &'static [Packet]);

/// The packets of three intervals of 4,194,304 ms, at their first and last moments and between; the process 102 has no
/// `v`.
const PACKETS: &[IntervalPackets] = &[
    (4, 0, &[(1_500, 100, 42), (2_000, 102, 1), (3_000, 101, 7)]),
    (2, 1, &[(4_194_304, 100, 9), (8_388_607, 101, 8)]),
    (1, 2, &[(8_388_608, 100, 5), (9_000_000, 100, 6)]),
];

/// They are functions, as the tables of asks below, so that they stand in no goal of their callers.
fn packets() -> &'static [IntervalPackets] {
    PACKETS
}

fn no_packets() -> &'static [IntervalPackets] {
    &[]
}

/// All, from either end.
const ALL: &[AskedValues] = &[
    (
        (b"v", 0, 10_000_000, Direction::Ascending, None),
        &[42, 7, 9, 8, 5, 6],
    ),
    (
        (b"v", 0, 10_000_000, Direction::Descending, None),
        &[6, 5, 8, 9, 7, 42],
    ),
    (
        (b"apid", 0, 10_000_000, Direction::Ascending, None),
        &[100, 102, 101, 100, 101, 100, 100],
    ),
    (
        (b"apid", 0, 10_000_000, Direction::Descending, Some(3)),
        &[100, 100, 101],
    ),
    ((b"w", 0, 10_000_000, Direction::Ascending, None), &[]),
];

/// Limits at and around the borders of parts.
const LIMITED: &[AskedValues] = &[
    ((b"v", 0, 10_000_000, Direction::Ascending, Some(0)), &[]),
    ((b"v", 0, 10_000_000, Direction::Ascending, Some(1)), &[42]),
    (
        (b"v", 0, 10_000_000, Direction::Ascending, Some(2)),
        &[42, 7],
    ),
    (
        (b"v", 0, 10_000_000, Direction::Ascending, Some(3)),
        &[42, 7, 9],
    ),
    (
        (b"v", 0, 10_000_000, Direction::Ascending, Some(6)),
        &[42, 7, 9, 8, 5, 6],
    ),
    (
        (b"v", 0, 10_000_000, Direction::Ascending, Some(7)),
        &[42, 7, 9, 8, 5, 6],
    ),
    ((b"v", 0, 10_000_000, Direction::Descending, Some(0)), &[]),
    ((b"v", 0, 10_000_000, Direction::Descending, Some(1)), &[6]),
    (
        (b"v", 0, 10_000_000, Direction::Descending, Some(2)),
        &[6, 5],
    ),
    (
        (b"v", 0, 10_000_000, Direction::Descending, Some(3)),
        &[6, 5, 8],
    ),
];

/// Ranges that cut parts, and ranges with limits.
const CUT: &[AskedValues] = &[
    ((b"v", 1_500, 1_500, Direction::Ascending, None), &[]),
    ((b"v", 1_500, 1_501, Direction::Ascending, None), &[42]),
    ((b"v", 1_501, 4_194_304, Direction::Ascending, None), &[7]),
    (
        (b"v", 3_000, 4_194_305, Direction::Ascending, None),
        &[7, 9],
    ),
    (
        (b"v", 4_194_304, 8_388_607, Direction::Descending, None),
        &[9],
    ),
    (
        (b"v", 8_388_607, 8_388_608, Direction::Descending, None),
        &[8],
    ),
    (
        (b"v", 9_000_001, 10_000_000, Direction::Descending, None),
        &[],
    ),
    (
        (b"v", 3_000, 8_388_608, Direction::Ascending, Some(2)),
        &[7, 9],
    ),
    (
        (b"v", 3_000, 8_388_608, Direction::Descending, Some(2)),
        &[8, 9],
    ),
];

/// Over no part.
const NONE: &[AskedValues] = &[((b"v", 0, 10, Direction::Descending, None), &[])];

fn all() -> &'static [AskedValues] {
    ALL
}

fn limited() -> &'static [AskedValues] {
    LIMITED
}

fn cut() -> &'static [AskedValues] {
    CUT
}

fn none() -> &'static [AskedValues] {
    NONE
}

/// The part of packets of an interval, as a set or as rows.
fn part_of(
    alloc: Global,
    mdb: &Mdb,
    interval: i64,
    packets: &[Packet],
    as_set: bool,
) -> Option<Part>
    ensures { IfSome result (HasValuesOf mdb.now) }
{
    match rows_of(alloc, packets) {
        Ok(rows) => part(alloc, mdb, Interval(interval), rows, as_set),
        Err(_) => None,
    }
}

/// Adds a part to others.
pub(crate) fn put_part(parts: &mut Parts, part: Option<Part>, _mdb: &Mdb) -> Result<(), AllocError>
    requires parts { AllByRecursion (HasValuesOf _mdb.now) parts.old }
    requires part { IfSome part (HasValuesOf _mdb.now) }
    ensures { AllByRecursion (HasValuesOf _mdb.now) parts.new }
{
    match part {
        Some(part) => parts.push(part),
        None => Err(AllocError),
    }
}

/// The parts of intervals, those of a mix as sets and the others as rows.
fn parts_of(
    alloc: Global,
    mdb: &Mdb,
    intervals: &[IntervalPackets],
    mix: u8,
) -> Result<Parts, AllocError>
    ensures { IfOk result (AllByRecursion (HasValuesOf mdb.now)) }
{
    let mut parts = Parts::new(alloc);
    for (bit, interval, packets) in intervals {
        let part = part_of(alloc, mdb, *interval, packets, mix & *bit != 0);
        put_part(&mut parts, part, mdb)?;
    }
    Ok(parts)
}

/// The answer to an ask over a mix.
fn answer_of(
    alloc: Global,
    mdb: &Mdb,
    intervals: &[IntervalPackets],
    mix: u8,
    asked: &Asked,
) -> Option<Answer> {
    match parts_of(alloc, mdb, intervals, mix) {
        Ok(parts) => answer_over(alloc, parts, mdb, asked),
        Err(_) => None,
    }
}

/// Whether an ask over a mix gives these raw values, at front 7.
fn gives(
    alloc: Global,
    mdb: &Mdb,
    intervals: &[IntervalPackets],
    mix: u8,
    asked: &AskedValues,
) -> bool {
    match answer_of(alloc, mdb, intervals, mix, &asked.0) {
        Some(answer) => answer.front == 7 && are_raws(&answer.cells, asked.1),
        None => false,
    }
}

/// Whether an ask gives its raw values over each mix.
fn gives_always(
    alloc: Global,
    mdb: &Mdb,
    intervals: &[IntervalPackets],
    asked: &AskedValues,
) -> bool {
    for mix in 0u8..8 {
        if !gives(alloc, mdb, intervals, mix, asked) {
            return false;
        }
    }
    true
}

/// The first ask that gives other raw values over some mix.
fn other_of(
    alloc: Global,
    mdb: &Mdb,
    intervals: &[IntervalPackets],
    asks: &[AskedValues],
) -> Option<usize> {
    for i in 0..asks.len() {
        if !gives_always(alloc, mdb, intervals, &asks[i]) {
            return Some(i);
        }
    }
    None
}

/// What goes otherwise under the database of these tests.
fn other_answer(alloc: Global, mdb: &Mdb) -> Option<Other> {
    if let Some(i) = other_of(alloc, mdb, packets(), all()) {
        return Some(("all", i));
    }
    if let Some(i) = other_of(alloc, mdb, packets(), limited()) {
        return Some(("limited", i));
    }
    if let Some(i) = other_of(alloc, mdb, packets(), cut()) {
        return Some(("cut", i));
    }
    if let Some(i) = other_of(alloc, mdb, no_packets(), none()) {
        return Some(("no parts", i));
    }
    if !is_worked(alloc, mdb, false) {
        return Some(("the worked rows", 0));
    }
    if !is_worked(alloc, mdb, true) {
        return Some(("the worked set", 0));
    }
    None
}

fn other(alloc: Global) -> Option<Other> {
    match Mdb::from_bytes(alloc, flight()) {
        Ok(mdb) => other_answer(alloc, &mdb),
        Err(_) => Some(("a database", 0)),
    }
}

#[test]
fn answers_over_parts(rt: HostRuntime) -> Result<(), Fail> {
    none_other(other(rt.alloc()))
}
