//! Worked octets of segments, both ways: each octet of them left out or changed, each width, and what would be a second spelling.

ghost use Rattle.std.specs.Prelude.{◌≤◌};
ghost use Rattle.segment_codec.specs.declared.segment.Segment.{Segment as ASegment};
ghost use Rattle.segment_codec.specs.Segment.{HasSegmentAt, IsSegment};

use arch_types::direction::Direction;
use segment_codec::{
    NotASegment, RowRange, Segment, put_segment, read_column, read_column_in_range, read_segment,
    write_segment,
};
use std::alloc::{AllocError, Global};
use std::test::*;

/// Parameter 0 (uint of 8 bits), raw 3 at (1500, 140820480) and 10 at (2500, 140820481).
const WORKED: &[u8] = &[
    0, 1, 0, 0, // one parameter: 0
    0, 2, // two rows
    0, 0, 0, 0, 0, 0, 0x05, 0xDC, 0x08, 0x64, 0xC0, 0x00, // the first key
    0x81, 0x80, 0x80, 0x80, 0x80, 0x7D, // the gap to the second
    1, 0, 0, 0, 0, 0, 0, 0, 0, 0, 0, 0, 0, 0, 0, 0, 3, // form 1, the least value
    3, 0x1C, // three bits each, and 0 and 7 in them
];

/// Where the raw column of the worked segment begins.
const COLUMN: usize = 24;

/// Parameters 7 and 3 in the same rows: 7 is 5 in both, 3 is as above.
const TWO: &[u8] = &[
    0, 2, 0, 7, 0, 3, // two parameters
    0, 2, // two rows
    0, 0, 0, 0, 0, 0, 0x05, 0xDC, 0x08, 0x64, 0xC0, 0x00, 0x81, 0x80, 0x80, 0x80, 0x80, 0x7D, // keys
    0, 0, 0, 0, 0, 0, 0, 0, 0, 0, 0, 0, 0, 0, 0, 0, 5, // form 0: all are 5
    1, 0, 0, 0, 0, 0, 0, 0, 0, 0, 0, 0, 0, 0, 0, 0, 3, 3, 0x1C, // form 1
];

/// Raw 3 at (-2^63, 0) and 10 at (2^63 - 2, 2^32 - 1), behind the widest gap.
const FAR: &[u8] = &[
    0, 1, 0, 0, // one parameter: 0
    0, 2, // two rows
    0x80, 0, 0, 0, 0, 0, 0, 0, 0, 0, 0, 0, // the first key
    0xFF, 0xFF, 0xFF, 0xFF, 0xEF, 0xFF, 0xFF, 0xFF, 0xFF, 0xFF, 0xFF, 0xFF, 0xFF, 0x1F, // the gap to the second
    1, 0, 0, 0, 0, 0, 0, 0, 0, 0, 0, 0, 0, 0, 0, 0, 3, 3, 0x1C, // 3 and 10
];

/// Raw 0 to 5, a millisecond apart: each gap is spelled as the one before.
const STEADY: &[u8] = &[
    0, 1, 0, 0, // one parameter: 0
    0, 6, // six rows
    0, 0, 0, 0, 0, 0, 0, 0, 0, 0, 0, 7, // the first key
    0x80, 0x80, 0x80, 0x80, 0x10, 0x80, 0x80, 0x80, 0x80, 0x10, // the first two gaps
    0x80, 0x80, 0x80, 0x80, 0x10, // the gap in the middle
    0x80, 0x80, 0x80, 0x80, 0x10, 0x80, 0x80, 0x80, 0x80, 0x10, // the last two
    1, 0, 0, 0, 0, 0, 0, 0, 0, 0, 0, 0, 0, 0, 0, 0, 0, 3, 0x05, 0x39, 0x40,
];

/// The same with a gap of two milliseconds in the middle, whose last octet alone is another.
const UNSTEADY: &[u8] = &[
    0, 1, 0, 0, // one parameter: 0
    0, 6, // six rows
    0, 0, 0, 0, 0, 0, 0, 0, 0, 0, 0, 7, // the first key
    0x80, 0x80, 0x80, 0x80, 0x10, 0x80, 0x80, 0x80, 0x80, 0x10, // the first two gaps
    0x80, 0x80, 0x80, 0x80, 0x20, // the gap in the middle
    0x80, 0x80, 0x80, 0x80, 0x10, 0x80, 0x80, 0x80, 0x80, 0x10, // the last two
    1, 0, 0, 0, 0, 0, 0, 0, 0, 0, 0, 0, 0, 0, 0, 0, 0, 3, 0x05, 0x39, 0x40,
];

/// A parameter, a range of times, and the values that a segment has of it there.
type Span = (u16, i64, i64, &'static [i128]);

const FAR_SPANS: &[Span] = &[
    (0, i64::MIN, i64::MAX, &[3, 10]),
    (0, i64::MIN, 0, &[3]),
    (0, 0, i64::MAX, &[10]),
    (0, i64::MIN + 1, i64::MAX - 1, &[]),
    (0, 1, 0, &[]),
];

const TWO_SPANS: &[Span] = &[
    (7, 0, 3_000, &[5, 5]),
    (7, 1_500, 2_500, &[5]),
    (3, 1_501, 2_501, &[10]),
    (3, 1_500, 1_501, &[3]),
    (3, 2_501, 9_000, &[]),
    (3, 0, 1_500, &[]),
];

const STEADY_SPANS: &[Span] = &[
    (0, -1, 9, &[0, 1, 2, 3, 4, 5]),
    (0, 0, 2, &[0, 1]),
    (0, 1, 9, &[1, 2, 3, 4, 5]),
    (0, 3, 4, &[3]),
    (0, 5, 6, &[5]),
    (0, 6, 9, &[]),
];

const UNSTEADY_SPANS: &[Span] = &[
    (0, 2, 5, &[2, 3]),
    (0, 3, 9, &[3, 4, 5]),
    (0, 3, 4, &[]),
    (0, 4, 5, &[3]),
    (0, 5, 6, &[4]),
    (0, 6, 7, &[5]),
    (0, 7, 9, &[]),
];

/// A direction, a limit, and the values that a segment has of a parameter up to it.
type Part = (Direction, Option<u64>, &'static [i128]);

const TWO_PARTS: &[Part] = &[
    (Direction::Ascending, Some(1), &[3]),
    (Direction::Descending, Some(1), &[10]),
    (Direction::Descending, Some(2), &[3, 10]),
    (Direction::Descending, None, &[3, 10]),
    (Direction::Ascending, Some(0), &[]),
    (Direction::Descending, Some(0), &[]),
    (Direction::Ascending, Some(u64::MAX), &[3, 10]),
];

/// A raw column's form 1, and 0 as its least value.
const FROM_ZERO: &[u8] = &[1, 0, 0, 0, 0, 0, 0, 0, 0, 0, 0, 0, 0, 0, 0, 0, 0];

/// A segment of one parameter and 4,096 rows up to its first key.
const MOST: &[u8] = &[
    0, 1, 0, 0, 0x10, 0, 0, 0, 0, 0, 0, 0, 0x05, 0xDC, 0x08, 0x64, 0xC0, 0,
];

/// The values 0 and 2^20 - 1, of 20 bits each.
const PAIR: &[u8] = &[0, 0, 0x0F, 0xFF, 0xFF];

/// What is changed of an octet: nothing, its lowest bit, its highest, all.
const BITS: &[u8] = &[0x00, 0x01, 0x80, 0xFF];

/// A place of the worked segment, the octet that is put there, and what is wrong then.
type Change = (usize, u8, &'static str);

const CHANGES: &[Change] = &[
    (1, 0, "no parameter"),
    (5, 0, "no row"),
    (4, 0x10, "4,098 rows"),
    (23, 0, "a needless last octet of a varint"),
    (24, 2, "no such form"),
    (41, 0, "a width of 0"),
    (41, 4, "a width one too great, and no difference is 0"),
    (
        42,
        0x3C,
        "no difference is 0, so another value is the least",
    ),
    (42, 0x08, "a width one too great"),
    (42, 0x1D, "a bit behind the last difference"),
];

fn worked() -> &'static [u8] {
    WORKED
}

/// The worked segment before its raw column.
fn front() -> &'static [u8] {
    &WORKED[..COLUMN]
}

fn two() -> &'static [u8] {
    TWO
}

fn changes() -> &'static [Change] {
    CHANGES
}

fn bits() -> &'static [u8] {
    BITS
}

fn far() -> &'static [u8] {
    FAR
}

fn far_spans() -> &'static [Span] {
    FAR_SPANS
}

fn two_spans() -> &'static [Span] {
    TWO_SPANS
}

fn steady() -> &'static [u8] {
    STEADY
}

fn unsteady() -> &'static [u8] {
    UNSTEADY
}

fn steady_spans() -> &'static [Span] {
    STEADY_SPANS
}

fn unsteady_spans() -> &'static [Span] {
    UNSTEADY_SPANS
}

fn two_parts() -> &'static [Part] {
    TWO_PARTS
}

fn from_zero() -> &'static [u8] {
    FROM_ZERO
}

fn most() -> &'static [u8] {
    MOST
}

fn pair() -> &'static [u8] {
    PAIR
}

/// What octets are read as.
#[derive(Clone, Copy)]
enum Reading {
    /// A segment of so many rows that ends there, and is spelled so.
    Segment(usize, usize),
    /// A segment with another spelling, or one for which memory is wanting.
    Other,
    Malformed,
}

/// Whether a segment is spelled by these octets.
fn is_spelled(alloc: Global, segment: &Segment, octets: &[u8]) -> bool
    requires { IsSegment segment.now }
{
    match write_segment(alloc, segment) {
        Ok(spelled) => spelled.as_slice() == octets,
        Err(_) => false,
    }
}

/// What octets are read as from a place.
fn reading_at(alloc: Global, octets: &[u8], at: usize) -> Reading {
    match read_segment(alloc, octets, at) {
        Ok((segment, end)) => {
            if is_spelled(alloc, &segment, &octets[at..end]) {
                Reading::Segment(segment.keys.len(), end)
            } else {
                Reading::Other
            }
        }
        Err(NotASegment::Malformed) => Reading::Malformed,
        Err(NotASegment::OutOfMemory) => Reading::Other,
    }
}

/// No segment stands there.
fn is_refused(alloc: Global, octets: &[u8], at: usize) -> bool {
    matches!(reading_at(alloc, octets, at), Reading::Malformed)
}

/// Octets are refused, or begin with the spelling of a segment that is written so again.
fn is_exact(alloc: Global, octets: &[u8]) -> bool {
    !matches!(reading_at(alloc, octets, 0), Reading::Other)
}

/// How many rows the segment of octets has, where it spells just these.
fn spelled_rows(alloc: Global, octets: &[u8]) -> Option<usize> {
    match reading_at(alloc, octets, 0) {
        Reading::Segment(rows, end) if end == octets.len() => Some(rows),
        _ => None,
    }
}

/// Whether a segment has the parameter 0 alone, with these values.
fn has_values(segment: &Segment, values: &[i128]) -> bool {
    match segment.columns.as_slice() {
        [column] => column.as_slice() == values
            && segment.parameters.as_slice() == [0u16].as_slice(),
        _ => false,
    }
}

/// Whether octets are one segment with these values of its one parameter, and just what it spells.
fn have_values(alloc: Global, octets: &[u8], values: &[i128]) -> bool {
    match read_segment(alloc, octets, 0) {
        Ok((segment, end)) => {
            end == octets.len()
                && has_values(&segment, values)
                && is_spelled(alloc, &segment, octets)
        }
        Err(_) => false,
    }
}

/// Whether a segment has the worked rows.
fn has_worked_keys(segment: &Segment) -> bool {
    match segment.keys.as_slice() {
        [first, second] => {
            (first.time, first.seq) == (1500, 140_820_480)
                && (second.time, second.seq) == (2500, 140_820_481)
        }
        _ => false,
    }
}

/// Whether octets are read as a segment with the worked rows.
fn have_worked_keys(alloc: Global, octets: &[u8]) -> bool {
    match read_segment(alloc, octets, 0) {
        Ok((segment, _)) => has_worked_keys(&segment),
        Err(_) => false,
    }
}

#[test]
fn worked_segment(rt: HostRuntime) {
    assert!(rt; have_values(rt.alloc(), worked(), &[3, 10]));
    assert!(rt; have_worked_keys(rt.alloc(), worked()));
}

/// Octets with another one at a place.
fn changed(alloc: Global, octets: &[u8], place: usize, octet: u8) -> Option<Vec<u8>> {
    let Ok(mut changed) = Vec::from_slice(alloc, octets) else {
        return None;
    };
    if place < changed.len() {
        changed[place] = octet;
    }
    Some(changed)
}

/// With another octet at a place they are exact.
fn is_exact_changed(alloc: Global, octets: &[u8], place: usize, octet: u8) -> bool {
    match changed(alloc, octets, place, octet) {
        Some(changed) => is_exact(alloc, &changed),
        None => false,
    }
}

/// The first place at which a change of these bits isn't exact, or before which a segment ends.
fn other_octet(alloc: Global, octets: &[u8], bits: u8) -> Option<usize> {
    for place in 0..octets.len() {
        if !is_exact_changed(alloc, octets, place, octets[place] ^ bits)
            || !is_refused(alloc, &octets[..place], 0)
        {
            return Some(place);
        }
    }
    None
}

/// The first bits of some whose change isn't exact somewhere.
fn other_bits(alloc: Global, octets: &[u8], bits: &[u8]) -> Option<u8> {
    for changed in bits {
        if other_octet(alloc, octets, *changed).is_some() {
            return Some(*changed);
        }
    }
    None
}

#[test]
fn each_octet_counts(rt: HostRuntime) {
    assert_eq!(rt; other_bits(rt.alloc(), worked(), bits()), None);
    assert_eq!(rt; other_bits(rt.alloc(), two(), bits()), None);
}

/// Whether the worked segment is refused with another octet at a place.
fn is_refused_changed(alloc: Global, place: usize, octet: u8) -> bool {
    match changed(alloc, worked(), place, octet) {
        Some(changed) => is_refused(alloc, &changed, 0),
        None => false,
    }
}

/// The first change with which a segment is read.
fn read_change(alloc: Global, changes: &[Change]) -> Option<&'static str> {
    for (place, octet, wrong) in changes {
        if !is_refused_changed(alloc, *place, *octet) {
            return Some(*wrong);
        }
    }
    None
}

#[test]
fn refuses_second_spellings(rt: HostRuntime) {
    assert_eq!(rt; read_change(rt.alloc(), changes()), None);
}

#[test]
fn refuses_places_past_the_end(rt: HostRuntime) {
    assert!(rt; is_refused(rt.alloc(), worked(), 1));
    assert!(rt; is_refused(rt.alloc(), worked(), worked().len()));
    assert!(rt; is_refused(rt.alloc(), worked(), worked().len() + 1));
    assert!(rt; is_refused(rt.alloc(), worked(), usize::MAX));
}

/// Octets, one part behind the other.
pub(crate) fn joined(alloc: Global, parts: &[&[u8]]) -> Result<Vec<u8>, AllocError> {
    let mut octets = Vec::new(alloc);
    for part in parts {
        octets.extend_from_slice(*part)?;
    }
    Ok(octets)
}

/// Whether octets in parts are one segment with these values of its one parameter, and just what it spells.
fn are_spelled(alloc: Global, parts: &[&[u8]], values: &[i128]) -> bool {
    match joined(alloc, parts) {
        Ok(octets) => have_values(alloc, &octets, values),
        Err(_) => false,
    }
}

/// Whether the worked segment can have the values 0 and 2^width - 1, the width being 1 to 64.
fn has_width(alloc: Global, width: u32) -> bool
    requires some { 1 ≤ width }
    requires most { width ≤ 64 }
{
    let ones = u128::MAX >> (128 - width);
    let packed = (ones << (128 - 2 * width)).to_be_bytes();
    let column = &packed[..(2 * width as usize + 7) / 8];
    let greatest = i128::from(u64::MAX >> (64 - width));
    are_spelled(
        alloc,
        &[front(), from_zero(), &[width as u8], column],
        &[0, greatest],
    )
}

/// The first width that isn't read and written.
fn other_width(alloc: Global) -> Option<u32> {
    for narrower in 0u32..64 {
        if !has_width(alloc, narrower + 1) {
            return Some(narrower + 1);
        }
    }
    None
}

#[test]
fn each_width(rt: HostRuntime) {
    assert_eq!(rt; other_width(rt.alloc()), None);
}

/// Whether the worked segment can have the least and the greatest value that there are.
fn has_widest(alloc: Global) -> bool {
    let least = i128::MIN.to_be_bytes();
    are_spelled(
        alloc,
        &[front(), &[1], &least, &[128], &[0; 16], &[0xFF; 16]],
        &[i128::MIN, i128::MAX],
    )
}

#[test]
fn widest_column(rt: HostRuntime) {
    assert!(rt; has_widest(rt.alloc()));
}

/// Whether the worked segment with one value in both rows has 17 octets behind its keys.
fn takes_17_octets(alloc: Global, value: i128) -> bool {
    are_spelled(
        alloc,
        &[front(), &[0], &value.to_be_bytes()],
        &[value, value],
    )
}

#[test]
fn constants_take_17_octets(rt: HostRuntime) {
    assert!(rt; takes_17_octets(rt.alloc(), i128::MIN));
    assert!(rt; takes_17_octets(rt.alloc(), -1));
    assert!(rt; takes_17_octets(rt.alloc(), 0));
    assert!(rt; takes_17_octets(rt.alloc(), 10));
    assert!(rt; takes_17_octets(rt.alloc(), i128::MAX));
}

/// Adds the same octets so many times.
fn put_times(octets: &mut Vec<u8>, part: &[u8], times: usize) -> Result<(), AllocError> {
    for _ in 0..times {
        octets.extend_from_slice(part)?;
    }
    Ok(())
}

/// 4,096 rows, the keys one after the other, the values 0 and 2^20 - 1 in turn.
fn put_most_rows(octets: &mut Vec<u8>) -> Result<(), AllocError> {
    octets.extend_from_slice(most())?;
    put_times(octets, &[1], 4095)?;
    octets.extend_from_slice(from_zero())?;
    octets.push(20)?;
    put_times(octets, pair(), 2048)
}

/// The number of rows of the segment that they spell.
fn rows_of_most(alloc: Global) -> Option<usize> {
    let mut octets = Vec::new(alloc);
    match put_most_rows(&mut octets) {
        Ok(()) => spelled_rows(alloc, &octets),
        Err(_) => None,
    }
}

#[test]
fn most_rows(rt: HostRuntime) {
    assert_eq!(rt; rows_of_most(rt.alloc()), Some(4096));
}

/// Whether a segment has these values of a parameter, and a key for each; nothing where it hasn't the parameter.
fn column_is(alloc: Global, octets: &[u8], parameter: u16, values: &[i128]) -> Option<bool>
    requires { (s : ASegment) × HasSegmentAt octets.now 0 s }
{
    match read_column(alloc, octets, 0, parameter) {
        Ok(Some(column)) => {
            Some(column.values.as_slice() == values && column.keys.len() == values.len())
        }
        Ok(None) => None,
        Err(_) => Some(false),
    }
}

/// Whether one of two columns is read, and none of a parameter that isn't there.
fn reads_one_column(alloc: Global, octets: &[u8]) -> bool {
    match read_segment(alloc, octets, 0) {
        Ok(_) => {
            matches!(column_is(alloc, octets, 3, &[3, 10]), Some(true))
                && column_is(alloc, octets, 4, &[]).is_none()
        }
        Err(_) => false,
    }
}

#[test]
fn one_column_of_two(rt: HostRuntime) {
    assert!(rt; reads_one_column(rt.alloc(), two()));
}

/// Whether a segment has these values of a parameter in the rows of a range, and a key for each.
fn span_is(alloc: Global, octets: &[u8], parameter: u16, range: RowRange, values: &[i128]) -> bool
    requires { (s : ASegment) × HasSegmentAt octets.now 0 s }
{
    match read_column_in_range(alloc, octets, 0, parameter, range) {
        Ok(Some(column)) => {
            column.values.as_slice() == values && column.keys.len() == values.len()
        }
        _ => false,
    }
}

/// Whether a segment has such values in each range.
fn spans_are(alloc: Global, octets: &[u8], spans: &[Span]) -> bool
    requires { (s : ASegment) × HasSegmentAt octets.now 0 s }
{
    for (parameter, from, to, values) in spans {
        let range = RowRange {
            from: *from,
            to: *to,
            direction: Direction::Ascending,
            limit: None,
        };
        if !span_is(alloc, octets, *parameter, range, values) {
            return false;
        }
    }
    true
}

/// Whether a segment has such values of the parameter 3 in each direction up to a limit.
fn parts_are(alloc: Global, octets: &[u8], parts: &[Part]) -> bool
    requires { (s : ASegment) × HasSegmentAt octets.now 0 s }
{
    for (direction, limit, values) in parts {
        let range = RowRange {
            from: 1_500,
            to: 2_501,
            direction: *direction,
            limit: *limit,
        };
        if !span_is(alloc, octets, 3, range, values) {
            return false;
        }
    }
    true
}

/// Whether octets spell a segment with such values.
fn are_spans_of(alloc: Global, octets: &[u8], spans: &[Span]) -> bool {
    match read_segment(alloc, octets, 0) {
        Ok(_) => spans_are(alloc, octets, spans),
        Err(_) => false,
    }
}

/// Whether octets spell a segment with such values up to limits.
fn are_parts_of(alloc: Global, octets: &[u8], parts: &[Part]) -> bool {
    match read_segment(alloc, octets, 0) {
        Ok(_) => parts_are(alloc, octets, parts),
        Err(_) => false,
    }
}

#[test]
fn columns_in_ranges(rt: HostRuntime) {
    assert!(rt; are_spans_of(rt.alloc(), far(), far_spans()));
    assert!(rt; are_spans_of(rt.alloc(), two(), two_spans()));
    assert!(rt; are_spans_of(rt.alloc(), steady(), steady_spans()));
    assert!(rt; are_spans_of(rt.alloc(), unsteady(), unsteady_spans()));
    assert!(rt; are_parts_of(rt.alloc(), two(), two_parts()));
}

/// Adds the segment that octets spell.
fn put_spelled(alloc: Global, octets: &mut Vec<u8>, spelled: &[u8]) -> bool {
    match read_segment(alloc, spelled, 0) {
        Ok((segment, _)) => put_segment(alloc, octets, &segment).is_ok(),
        Err(_) => false,
    }
}

/// Whether a segment of parameter 0 alone stands from a place to the end of octets.
fn ends_with(alloc: Global, octets: &[u8], at: usize) -> bool {
    match read_segment(alloc, octets, at) {
        Ok((segment, end)) => {
            end == octets.len() && segment.parameters.as_slice() == [0u16].as_slice()
        }
        Err(_) => false,
    }
}

/// Whether the worked segment is read behind another.
fn stands_behind(alloc: Global) -> bool {
    let mut octets = Vec::new(alloc);
    octets.extend_from_slice(two()).is_ok()
        && put_spelled(alloc, &mut octets, worked())
        && ends_with(alloc, &octets, two().len())
}

#[test]
fn one_behind_the_other(rt: HostRuntime) {
    assert!(rt; stands_behind(rt.alloc()));
}

#[test]
fn prints_faults(rt: HostRuntime) -> Result<(), Fail> {
    let text = format!(in rt.alloc(); "{}, {}", NotASegment::Malformed, NotASegment::OutOfMemory)?;
    assert!(rt; text.as_str() == "the octets spell no such value, out of memory");
    Ok(())
}
