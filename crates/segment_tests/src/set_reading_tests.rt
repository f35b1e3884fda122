//! Sets read back from octets: what is accepted is spelled so, and everything else is Malformed.

use crate::ordered::built;
use crate::segment_codec_tests::joined;
use crate::set_tests::{Packet, is_spelled, put_counted, rows_of, worked};
use arch_types::octets::Octets;
use arch_types::row::Rows;
use intervals::{Exponent, Interval};
use mdb_model::Mdb;
use param_segments::{NotASegment, SegSet};
use std::alloc::Global;

/// What octets are read as.
#[derive(Clone, Copy)]
enum Reading {
    /// A set of so many segments, which is spelled so.
    Set(u32),
    /// A set with another spelling, or one for which memory is wanting.
    Other,
    Malformed,
}

/// What octets are read as in an interval.
fn reading_in(alloc: Global, interval: i64, octets: &[u8], mdb: &Mdb) -> Reading {
    match SegSet::from_bytes(
        alloc,
        Interval(interval),
        Exponent::of_format_1(),
        octets,
        mdb,
    ) {
        Ok(set) => {
            if is_spelled(&set, octets) {
                Reading::Set(set.segments())
            } else {
                Reading::Other
            }
        }
        Err(NotASegment::Malformed) => Reading::Malformed,
        Err(NotASegment::OutOfMemory) => Reading::Other,
    }
}

/// Whether octets are read as a set of so many segments.
pub(crate) fn are_segments(alloc: Global, octets: &[u8], mdb: &Mdb, segments: u32) -> bool {
    matches!(reading_in(alloc, 0, octets, mdb), Reading::Set(read) if read == segments)
}

/// Whether no set of an interval is read.
fn is_refused(alloc: Global, interval: i64, octets: &[u8], mdb: &Mdb) -> bool {
    matches!(reading_in(alloc, interval, octets, mdb), Reading::Malformed)
}

/// What is accepted is spelled by just these octets, and what isn't is Malformed.
fn is_exact(alloc: Global, octets: &[u8], mdb: &Mdb) -> bool {
    !matches!(reading_in(alloc, 0, octets, mdb), Reading::Other)
}

/// Whether a set that shares its octets has so many segments, and is spelled by them.
fn is_shared(alloc: Global, octets: Octets, mdb: &Mdb, segments: u32) -> bool {
    match SegSet::from_octets(alloc, Interval(0), Exponent::of_format_1(), octets, mdb) {
        Ok(set) => set.segments() == segments && is_spelled(&set, worked()),
        Err(_) => false,
    }
}

/// The same of the worked octets.
fn worked_is_shared(alloc: Global, mdb: &Mdb) -> bool {
    match Octets::from_slice(alloc, worked()) {
        Ok(octets) => is_shared(alloc, octets, mdb, 1),
        Err(_) => false,
    }
}

/// The worked octets, with these bits of one of them changed.
fn changed(alloc: Global, place: usize, bits: u8) -> Option<Vec<u8>> {
    let Ok(mut octets) = Vec::from_slice(alloc, worked()) else {
        return None;
    };
    if place < octets.len() {
        octets[place] ^= bits;
    }
    Some(octets)
}

/// With these bits of one of them changed, the worked octets are read exactly.
fn is_exact_changed(alloc: Global, mdb: &Mdb, place: usize, bits: u8) -> bool {
    match changed(alloc, place, bits) {
        Some(octets) => is_exact(alloc, &octets, mdb),
        None => false,
    }
}

/// So they are with these bits of any octet changed.
fn each_counts(alloc: Global, mdb: &Mdb, bits: u8) -> bool {
    for place in 0..worked().len() {
        if !is_exact_changed(alloc, mdb, place, bits) {
            return false;
        }
    }
    true
}

/// No front of the octets is read as a set.
fn no_front_is_read(alloc: Global, octets: &[u8], mdb: &Mdb) -> bool {
    for len in 0..octets.len() {
        if !is_refused(alloc, 0, &octets[..len], mdb) {
            return false;
        }
    }
    true
}

/// What octets in parts are read as.
fn reading_of(alloc: Global, parts: &[&[u8]], mdb: &Mdb) -> Reading {
    match joined(alloc, parts) {
        Ok(octets) => reading_in(alloc, 0, &octets, mdb),
        Err(_) => Reading::Other,
    }
}

/// What the worked octets are read as with these bits of one of them changed.
fn reading_changed(alloc: Global, place: usize, bits: u8, mdb: &Mdb) -> Reading {
    match changed(alloc, place, bits) {
        Some(octets) => reading_in(alloc, 0, &octets, mdb),
        None => Reading::Other,
    }
}

/// Whether the worked octets are read with these bits of one of them changed.
fn is_read_changed(alloc: Global, place: usize, bits: u8, mdb: &Mdb) -> bool {
    matches!(reading_changed(alloc, place, bits, mdb), Reading::Set(1))
}

/// Whether they are refused.
fn is_refused_changed(alloc: Global, place: usize, bits: u8, mdb: &Mdb) -> bool {
    matches!(reading_changed(alloc, place, bits, mdb), Reading::Malformed)
}

/// Packets each of whose sets has a segment of one row: two of different groups, and one of the second group with the key
/// of the first packet.
const FIRST: &[Packet] = &[(1, 0, &[0, 5, 6])];

const SECOND: &[Packet] = &[(2, 0, &[3, 5, 6])];

const SAME_KEY: &[Packet] = &[(1, 0, &[3, 5, 6])];

/// They are functions, so that they stand in no goal of their callers.
fn first() -> &'static [Packet] {
    FIRST
}

fn second() -> &'static [Packet] {
    SECOND
}

fn same_key() -> &'static [Packet] {
    SAME_KEY
}

/// The octets of the set of some rows.
fn spelled(alloc: Global, rows: &Rows, mdb: &Mdb) -> Option<Octets> {
    match built(alloc, Interval(0), rows, mdb) {
        Ok(Some(set)) => set.to_bytes().ok(),
        _ => None,
    }
}

/// The octets of the set of packets.
fn spelled_packets(alloc: Global, mdb: &Mdb, packets: &[Packet]) -> Option<Octets> {
    match rows_of(alloc, packets) {
        Ok(rows) => spelled(alloc, &rows, mdb),
        Err(_) => None,
    }
}

/// The octets of the set of so many rows of one group with one value, the first at a time.
fn spelled_counted(alloc: Global, mdb: &Mdb, first: u16, count: u16) -> Option<Octets> {
    let mut rows = Rows::new(alloc);
    match put_counted(alloc, &mut rows, first, count, Some(7)) {
        Ok(()) => spelled(alloc, &rows, mdb),
        Err(_) => None,
    }
}

/// The segments behind the count of a set.
fn behind_count(octets: &[u8]) -> &[u8] {
    match octets.split_at_checked(4) {
        Some((_, segments)) => segments,
        None => &[],
    }
}

/// What the segments of two sets are read as, one behind the other.
fn reading_of_two(alloc: Global, mdb: &Mdb, front: &[u8], back: &[u8]) -> Reading {
    let parts = &[&[0, 0, 0, 2], behind_count(front), behind_count(back)];
    reading_of(alloc, parts, mdb)
}

/// The same of sets, each of one segment, where memory isn't wanting for one of them.
fn reading_of_sets(
    alloc: Global,
    mdb: &Mdb,
    front: Option<Octets>,
    back: Option<Octets>,
) -> Reading {
    match (front, back) {
        (Some(front), Some(back)) => {
            reading_of_two(alloc, mdb, front.as_slice(), back.as_slice())
        }
        _ => Reading::Other,
    }
}

/// What two sets of packets are read as.
fn reading_of_packets(alloc: Global, mdb: &Mdb, front: &[Packet], back: &[Packet]) -> Reading {
    let front = spelled_packets(alloc, mdb, front);
    reading_of_sets(alloc, mdb, front, spelled_packets(alloc, mdb, back))
}

/// Segments are read in the order of their first rows alone, and none twice.
pub(crate) fn are_ordered(alloc: Global, mdb: &Mdb) -> bool {
    matches!(
        reading_of_packets(alloc, mdb, first(), second()),
        Reading::Set(2)
    ) && matches!(
        reading_of_packets(alloc, mdb, second(), first()),
        Reading::Malformed
    ) && matches!(
        reading_of_packets(alloc, mdb, first(), first()),
        Reading::Malformed
    )
}

/// No key stands in two segments.
pub(crate) fn are_keys_apart(alloc: Global, mdb: &Mdb) -> bool {
    matches!(
        reading_of_packets(alloc, mdb, first(), same_key()),
        Reading::Malformed
    ) && matches!(
        reading_of_packets(alloc, mdb, same_key(), first()),
        Reading::Malformed
    )
}

/// What so many rows of one group, and so many behind them, are read as where each are a segment.
fn reading_of_counted(alloc: Global, mdb: &Mdb, first: u16, count: u16) -> Reading {
    let front = spelled_counted(alloc, mdb, 0, first);
    reading_of_sets(alloc, mdb, front, spelled_counted(alloc, mdb, first, count))
}

/// A segment that another of its group follows is full.
fn pieces_are_full(alloc: Global, mdb: &Mdb) -> bool {
    matches!(reading_of_counted(alloc, mdb, 4096, 1), Reading::Set(2))
        && matches!(reading_of_counted(alloc, mdb, 4095, 2), Reading::Malformed)
}

/// There is parameter 0 alone; it has eight bits, so values of 248 and 255 are read, and 249 and 256 aren't.
fn are_of_the_database(alloc: Global, mdb: &Mdb) -> bool {
    is_refused_changed(alloc, 7, 1, mdb)
        && is_read_changed(alloc, 44, 3 ^ 248, mdb)
        && is_refused_changed(alloc, 44, 3 ^ 249, mdb)
}

/// Whether each change of some bits of an octet counts.
fn each_octet_counts(alloc: Global, mdb: &Mdb) -> bool {
    each_counts(alloc, mdb, 0x01) && each_counts(alloc, mdb, 0x80) && each_counts(alloc, mdb, 0xFF)
}

/// The octets under the database of one group that are read otherwise.
pub(crate) fn other_of_one_group_read(alloc: Global, mdb: &Mdb) -> Option<&'static str> {
    if !are_segments(alloc, worked(), mdb, 1) {
        return Some("the worked octets");
    }
    if !are_segments(alloc, &[0; 4], mdb, 0) {
        return Some("no segment");
    }
    if !worked_is_shared(alloc, mdb) {
        return Some("octets that are shared");
    }
    if !each_octet_counts(alloc, mdb) {
        return Some("another octet");
    }
    if !no_front_is_read(alloc, worked(), mdb) {
        return Some("octets cut off");
    }
    if !matches!(
        reading_of(alloc, &[worked(), &[0]], mdb),
        Reading::Malformed
    ) {
        return Some("an octet more");
    }
    if !is_refused(alloc, 1, worked(), mdb) || !is_refused(alloc, -1, worked(), mdb) {
        return Some("another interval");
    }
    if !are_of_the_database(alloc, mdb) {
        return Some("parameters and widths of the database");
    }
    if !pieces_are_full(alloc, mdb) {
        return Some("pieces that aren't full");
    }
    None
}
