//! Sets of packets under worked databases: sets that are built here, and what the octets of sets are read as in
//! set_reading_tests.rt. A test gives the first case that goes otherwise.

ghost use Rattle.std.specs.Prelude.{◌≡◌, ◌<◌};
ghost use Rattle.param_segments.specs.Cells.{AreValuesOf};

use crate::ordered::built;
use crate::set_range_tests::{each_range, ranges_are_asked};
use crate::set_reading_tests::{
    are_keys_apart, are_ordered, are_segments, other_of_one_group_read,
};
use arch_types::cell::{Cell, Cells};
use arch_types::key::Key;
use arch_types::octets::Octets;
use arch_types::row::{Row, Rows};
use arch_types::steps::Steps;
use intervals::Interval;
use mdb_model::Mdb;
use param_segments::SegSet;
use std::alloc::{AllocError, Global};
use std::marker::Brand;
use std::sync::ledger::{Blank, Ledger};
use std::test::*;

/// The database of a parameter `v` of eight bits at the start of a packet.
const ONE_GROUP: &[u8] = &[
    0, 1, 1, b'v', 0, 8, 0, 0, // v, uint, 8 bits
    0, 0, // no calibration
    0, 1, 1, b'R', 0, 0, 1, 0, // R, archived
    0, 1, 0, 0, 0, 0, 0, 0, // v at bit 0
];

/// The database of one octet, and a second one in packets that begin with 0, 1 or 2: there before the third, else behind
/// it.
const TWO_GROUPS: &[u8] = &[
    0, 3, 4, b'k', b'i', b'n', b'd', 0, 8, 0, 0, 1, b'v', 0, 8, 0, 0, 1, b'w', 0, 8, 0, 0, // kind, v, w, uint, 8 bits each
    0, 0, // no calibration
    0, 3, 1, b'R', 0, 0, 1, 0, 0, 1, 0, 0, 0, 0, 0, 0, // R, archived: kind at bit 0
    1, b'A', 0, 1, 1, 1, 0, 0, 3, 0, 0, 0, 0, 0, 0, 0, 0, 0, 0, 0, 0, 0, 0, 0, 2, // A, below R: kind <= 2
    0, 2, 0, 1, 0, 0, 0, 8, 0, 2, 0, 0, 0, 16, // v at bit 8, w at bit 16
    1, b'B', 0, 1, 1, 1, 0, 0, 4, 0, 0, 0, 0, 0, 0, 0, 0, 0, 0, 0, 0, 0, 0, 0, 2, // B, below R: kind > 2
    0, 2, 0, 2, 0, 0, 0, 8, 0, 1, 0, 0, 0, 16, // w at bit 8, v at bit 16
];

/// The set of 3 at (1500, 140820480) and 10 at (2500, 140820481).
const WORKED: &[u8] = &[
    0, 0, 0, 1, // one segment
    0, 1, 0, 0, 0, 2, // parameter 0, two rows
    0, 0, 0, 0, 0, 0, 0x05, 0xDC, 0x08, 0x64, 0xC0, 0x00, // the first key
    0x81, 0x80, 0x80, 0x80, 0x80, 0x7D, // the gap to the second
    1, 0, 0, 0, 0, 0, 0, 0, 0, 0, 0, 0, 0, 0, 0, 0, 3, 3, 0x1C, // 3 and 10
];

/// The key of a row, and its packet.
pub(crate) type Packet = (i64, u32, &'static [u8]);

const WORKED_PACKETS: &[Packet] = &[(1500, 140_820_480, &[3]), (2500, 140_820_481, &[10, 7])];

/// Ranges at the edges of two full segments and a row.
const EDGES: &[(i64, i64)] = &[
    (i64::MIN, i64::MAX),
    (i64::MIN, 0),
    (0, 1),
    (4_094, 4_096),
    (4_095, 4_097),
    (4_096, 4_097),
    (8_191, 8_193),
    (8_192, i64::MAX),
    (8_193, i64::MAX),
    (1, 0),
];

const EMPTY_PACKET: &[Packet] = &[(1, 0, &[])];

/// They are functions, so that they stand in no goal of their callers.
fn one_group() -> &'static [u8] {
    ONE_GROUP
}

fn two_groups() -> &'static [u8] {
    TWO_GROUPS
}

pub(crate) fn worked() -> &'static [u8] {
    WORKED
}

fn worked_packets() -> &'static [Packet] {
    WORKED_PACKETS
}

fn edges() -> &'static [(i64, i64)] {
    EDGES
}

fn empty_packet() -> &'static [Packet] {
    EMPTY_PACKET
}

/// Adds the row of a packet.
fn put_row(
    alloc: Global,
    rows: &mut Rows,
    time: i64,
    seq: u32,
    packet: &[u8],
) -> Result<(), AllocError> {
    let packet = Octets::from_slice(alloc, packet)?;
    rows.push(Row {
        key: Key { time, seq },
        rectime: time,
        packet,
        link: 1,
        pname: 0,
        table: 0,
    })
}

/// The rows of packets.
pub(crate) fn rows_of(alloc: Global, packets: &[Packet]) -> Result<Rows, AllocError> {
    let mut rows = Rows::new(alloc);
    for (time, seq, packet) in packets {
        put_row(alloc, &mut rows, *time, *seq, packet)?;
    }
    Ok(rows)
}

/// Whether a set is spelled by these octets.
pub(crate) fn is_spelled(set: &SegSet, octets: &[u8]) -> bool {
    match set.to_bytes() {
        Ok(spelled) => spelled.as_slice() == octets,
        Err(_) => false,
    }
}

/// Whether cells have these times and raw numbers.
fn have_raws(cells: &[Cell], raws: &[(i64, i128)]) -> bool {
    if cells.len() != raws.len() {
        return false;
    }
    for i in 0..cells.len() {
        if (cells[i].key.time, cells[i].raw) != raws[i] {
            return false;
        }
    }
    true
}

/// Whether a set has cells of a parameter with these times and raw numbers.
fn has_raws(alloc: Global, set: &SegSet, mdb: &Mdb, parameter: u16, raws: &[(i64, i128)]) -> bool
    requires { AreValuesOf mdb.now set.now }
{
    match set.cells(alloc, mdb, parameter) {
        Ok(cells) => have_raws(cells.as_slice(), raws),
        Err(_) => false,
    }
}

/// Whether rows have a set with these octets, so many segments, and cells of the parameter 0 with these raw numbers.
fn have_set(
    alloc: Global,
    rows: &Rows,
    mdb: &Mdb,
    octets: &[u8],
    segments: u32,
    raws: &[(i64, i128)],
) -> bool {
    match built(alloc, Interval(0), rows, mdb) {
        Ok(Some(set)) => {
            is_spelled(&set, octets)
                && set.segments() == segments
                && has_raws(alloc, &set, mdb, 0, raws)
        }
        _ => false,
    }
}

/// The same of packets.
fn are_in_set(
    alloc: Global,
    packets: &[Packet],
    mdb: &Mdb,
    octets: &[u8],
    segments: u32,
    raws: &[(i64, i128)],
) -> bool {
    match rows_of(alloc, packets) {
        Ok(rows) => have_set(alloc, &rows, mdb, octets, segments, raws),
        Err(_) => false,
    }
}

/// Adds so many rows, of kinds 0, 1, 2, 3, and then 0, 1, 3, 2 in turn, so that those of one group have values in another
/// order. Within a millisecond the number decides: the row of the first group comes before that of the second, or behind it.
fn put_alternating(alloc: Global, rows: &mut Rows, count: u16) -> Result<(), AllocError> {
    for n in 0..count {
        let kind = (n % 4) ^ ((n % 4 / 2) & (n / 4 % 2));
        let packet = [kind as u8, (n / 256) as u8, (n % 256) as u8];
        put_row(alloc, rows, i64::from(n / 2), u32::from(n % 2), &packet)?;
    }
    Ok(())
}

/// Whether cells have the keys of rows.
fn have_keys(cells: &[Cell], rows: &[Row]) -> bool {
    if cells.len() != rows.len() {
        return false;
    }
    for i in 0..cells.len() {
        if cells[i].key != rows[i].key {
            return false;
        }
    }
    true
}

/// Whether a set has a cell of the parameter 0 for each row.
fn has_keys(alloc: Global, set: &SegSet, mdb: &Mdb, rows: &[Row]) -> bool
    requires { AreValuesOf mdb.now set.now }
{
    match set.cells(alloc, mdb, 0) {
        Ok(cells) => have_keys(cells.as_slice(), rows),
        Err(_) => false,
    }
}

/// Whether the octets of a set are read as so many segments, spelled so.
fn is_read_back(alloc: Global, set: &SegSet, mdb: &Mdb, segments: u32) -> bool {
    match set.to_bytes() {
        Ok(octets) => are_segments(alloc, octets.as_slice(), mdb, segments),
        Err(_) => false,
    }
}

/// Whether rows are in two groups, which have a cell for each in the rows' order, and none of a parameter that isn't there;
/// and whether their segments are spelled in the order in which they are read.
fn are_in_two_groups(alloc: Global, rows: &Rows, mdb: &Mdb) -> bool {
    match built(alloc, Interval(0), rows, mdb) {
        Ok(Some(set)) => {
            set.segments() == 2
                && has_keys(alloc, &set, mdb, rows.as_slice())
                && has_raws(alloc, &set, mdb, 9, &[])
                && is_read_back(alloc, &set, mdb, 2)
        }
        _ => false,
    }
}

fn groups_alternate(alloc: Global, mdb: &Mdb) -> bool {
    let mut rows = Rows::new(alloc);
    put_alternating(alloc, &mut rows, 1000).is_ok() && are_in_two_groups(alloc, &rows, mdb)
}

/// Whether all ranges of twelve rows of two groups are asked as they're of all of their cells.
fn alternating_ranges_are_asked(alloc: Global, mdb: &Mdb) -> bool {
    let mut rows = Rows::new(alloc);
    match each_range(alloc, 9) {
        Ok(ranges) => {
            put_alternating(alloc, &mut rows, 12).is_ok()
                && ranges_are_asked(alloc, mdb, &rows, &ranges)
        }
        Err(_) => false,
    }
}

/// Adds so many rows of one group, the first at a time, all with one value where it is given.
pub(crate) fn put_counted(
    alloc: Global,
    rows: &mut Rows,
    first: u16,
    count: u16,
    value: Option<u8>,
) -> Result<(), AllocError> {
    for n in 0..count {
        let time = i64::from(first) + i64::from(n);
        put_row(alloc, rows, time, 0, &[value.unwrap_or((n % 251) as u8)])?;
    }
    Ok(())
}

/// Whether a copy of a set has a cell for each row.
fn copy_has_keys(alloc: Global, set: &SegSet, mdb: &Mdb, rows: &[Row]) -> bool
    requires { AreValuesOf mdb.now set.now }
{
    match set.copy(alloc) {
        Ok(copy) => has_keys(alloc, &copy, mdb, rows),
        Err(_) => false,
    }
}

/// The cells of the parameter 0 in a segment, where a set has one of this number.
fn cells_in<L: Ledger>(
    alloc: Global,
    blank: Blank,
    set: &SegSet,
    mdb: &Mdb,
    segment: u32,
) -> Option<Cells>
    requires name { blank.name ≡ L.name }
    requires parts { blank.parts ≡ L.parts }
    requires some { 0 < blank.parts }
    requires values { AreValuesOf mdb.now set.now }
{
    if segment >= set.segments() {
        return None;
    }
    let (book, share) = blank.open::<L>();
    let mut steps = Steps::new(book, share);
    set.cells_in_segment(alloc, mdb, segment, 0, &mut steps)
        .ok()
}

/// Whether a segment of a set has a cell for each of these rows.
fn is_segment_of(alloc: Global, set: &SegSet, mdb: &Mdb, segment: u32, rows: &[Row]) -> bool
    requires { AreValuesOf mdb.now set.now }
{
    match cells_in::<Brand>(alloc, Blank::new(1), set, mdb, segment) {
        Some(cells) => have_keys(cells.as_slice(), rows),
        None => false,
    }
}

/// Whether each segment of a set of one group has a cell for each of its rows, which are 4,096 in all but the last.
fn segments_have_keys(alloc: Global, set: &SegSet, mdb: &Mdb, rows: &[Row]) -> bool
    requires { AreValuesOf mdb.now set.now }
{
    let mut segment = 0u32;
    for part in rows.chunks(4_096) {
        if !is_segment_of(alloc, set, mdb, segment, part) {
            return false;
        }
        segment = segment.saturating_add(1);
    }
    true
}

/// Whether a set has so many raw cells of the parameter 0.
fn has_raw_cells(alloc: Global, set: &SegSet, count: usize) -> bool {
    match set.raw_cells(alloc, 0) {
        Ok(cells) => cells.len() == count,
        Err(_) => false,
    }
}

/// How many raw cells of the parameter 0 the first segment of a set has.
fn first_raw_cells<L: Ledger>(alloc: Global, blank: Blank, set: &SegSet) -> Option<usize>
    requires name { blank.name ≡ L.name }
    requires parts { blank.parts ≡ L.parts }
    requires some { 0 < blank.parts }
{
    if set.segments() == 0 {
        return None;
    }
    let (book, share) = blank.open::<L>();
    let mut steps = Steps::new(book, share);
    let cells = set.raw_cells_in_segment(alloc, 0, 0, &mut steps).ok()?;
    Some(cells.len())
}

/// Whether a set of one group has a raw cell for each of its rows, and the first 4,096 of them in its first segment.
fn are_raw_cells(alloc: Global, set: &SegSet, count: usize) -> bool {
    has_raw_cells(alloc, set, count)
        && first_raw_cells::<Brand>(alloc, Blank::new(1), set) == Some(count.min(4_096))
}

/// Whether rows are in so many segments, and each has a cell in its segment and in a copy of the set.
fn are_in_segments(alloc: Global, rows: &Rows, mdb: &Mdb, segments: u32) -> bool {
    match built(alloc, Interval(0), rows, mdb) {
        Ok(Some(set)) => {
            set.segments() == segments
                && segments_have_keys(alloc, &set, mdb, rows.as_slice())
                && copy_has_keys(alloc, &set, mdb, rows.as_slice())
                && are_raw_cells(alloc, &set, rows.len())
        }
        _ => false,
    }
}

/// Whether so many rows of one group are in so many segments.
fn takes_segments(alloc: Global, mdb: &Mdb, count: u16, segments: u32) -> bool {
    let mut rows = Rows::new(alloc);
    put_counted(alloc, &mut rows, 0, count, None).is_ok()
        && are_in_segments(alloc, &rows, mdb, segments)
}

/// Whether ranges at the edges of two full segments and a row are asked as they're of all of their cells.
fn edges_are_asked(alloc: Global, mdb: &Mdb) -> bool {
    let mut rows = Rows::new(alloc);
    put_counted(alloc, &mut rows, 0, 8193, None).is_ok()
        && ranges_are_asked(alloc, mdb, &rows, edges())
}

/// The set under the database of one group that is built otherwise.
fn other_of_one_group(alloc: Global, mdb: &Mdb) -> Option<&'static str> {
    if !are_in_set(
        alloc,
        worked_packets(),
        mdb,
        worked(),
        1,
        &[(1500, 3), (2500, 10)],
    ) {
        return Some("the worked set");
    }
    if !are_in_set(alloc, empty_packet(), mdb, &[0; 4], 0, &[]) {
        return Some("a packet without values");
    }
    if !takes_segments(alloc, mdb, 4096, 1) {
        return Some("a full segment");
    }
    if !takes_segments(alloc, mdb, 4097, 2) {
        return Some("a row more");
    }
    if !takes_segments(alloc, mdb, 8193, 3) {
        return Some("two full segments and a row");
    }
    if !edges_are_asked(alloc, mdb) {
        return Some("ranges at the edges of segments");
    }
    None
}

/// The case that goes otherwise under the database of one group.
fn other_under_one_group(alloc: Global) -> Option<&'static str> {
    match Mdb::from_bytes(alloc, one_group()) {
        Ok(mdb) => match other_of_one_group(alloc, &mdb) {
            Some(other) => Some(other),
            None => other_of_one_group_read(alloc, &mdb),
        },
        Err(_) => Some("a database"),
    }
}

#[test]
fn sets_of_one_group(rt: HostRuntime) {
    assert_eq!(rt; other_under_one_group(rt.alloc()), None);
}

/// The case that goes otherwise under the database of two groups.
fn other_of_two_groups(alloc: Global, mdb: &Mdb) -> Option<&'static str> {
    if !groups_alternate(alloc, mdb) {
        return Some("groups that alternate");
    }
    if !alternating_ranges_are_asked(alloc, mdb) {
        return Some("ranges of groups that alternate");
    }
    if !are_ordered(alloc, mdb) {
        return Some("segments in another order");
    }
    if !are_keys_apart(alloc, mdb) {
        return Some("a key in two segments");
    }
    None
}

fn other_under_two_groups(alloc: Global) -> Option<&'static str> {
    match Mdb::from_bytes(alloc, two_groups()) {
        Ok(mdb) => other_of_two_groups(alloc, &mdb),
        Err(_) => Some("a database"),
    }
}

#[test]
fn sets_of_two_groups(rt: HostRuntime) {
    assert_eq!(rt; other_under_two_groups(rt.alloc()), None);
}
