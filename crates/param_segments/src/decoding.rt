//! Reads the segments of a set, and their keys.

ghost use Rattle.std.specs.Prelude.{◌≡◌, ◌+◌, ◌<◌, ◌^◌, ◌++◌, List, drop, flat_map, length, map, true, IfOk, OnOk, MatchResult};
ghost use Rattle.std.specs.Int.{w32};
ghost use Rattle.std.specs.List.{AllByRecursion};
ghost use Rattle.octet_fields.specs.Spelling.{counted};
ghost use Rattle.param_segments.specs.RowPlaces.{IsKnownSegment, are_known_parameters, key_in, key_places};
ghost use Rattle.param_segments.specs.Octets.{starts_from};
ghost use Rattle.segment_codec.specs.Segment.{HasSegmentAt, IsSegment, segment_octets};
ghost use Rattle.octet_fields.specs.declared.fault.DecodeError.TheVariants.{OutOfMemory};
ghost use Rattle.segment_codec.specs.declared.segment.Segment.{Segment as ASegment};

use crate::asking::are_known_parameters;
use crate::key_place::KeyPlace;
use arch_types::key::Key;
use mdb_model::Mdb;
use octet_fields::{room_for, u32_at};
use segment_codec::{NotASegment, SegmentOutline, read_outline, read_parameters};
use std::alloc::{AllocError, Global};

/// The octets of the count of the segments, which stands before them.
const COUNT_OCTETS: usize = 4;

/// The fewest octets of a segment: two counts, a parameter, a key and a column.
const LEAST_SEGMENT: usize = 35;

/// The segment that stands in octets from a place on, and the place where it ends. Its parameters are asked before it
/// is read: a few octets spell thousands of values, and a database has few parameters (D-166).
fn known_segment_at<'a>(
    alloc: Global,
    octets: &'a [u8],
    at: usize,
    mdb: &Mdb,
) -> Result<(SegmentOutline<'a>, usize), NotASegment>
    ensures found { IfOk result (λ x. HasSegmentAt octets.now at x.0) }
    ensures end { IfOk result (λ x. x.1 ≡ at + length (segment_octets x.0)) }
    ensures each { (s : ASegment) → HasSegmentAt octets.now at s →
        are_known_parameters mdb.now s.parameters ≡ true → MatchResult result (λ x. x.0 ≡ s) (λ e. e ≡ OutOfMemory) }
{
    let parameters = read_parameters(alloc, octets, at)?;
    if !are_known_parameters(mdb, parameters.as_slice()) {
        return Err(NotASegment::Malformed);
    }
    let (segment, end) = read_outline(alloc, octets, at)?;
    Ok((segment, end))
}

/// Segments that were read, whose values stay where they are spelled.
#[derive(Drop)]
pub(crate) struct ReadSegments<'a> {
    pub(crate) segments: Vec<SegmentOutline<'a>>,
    /// The place where each begins.
    pub(crate) starts: Vec<u32>,
    /// The place behind the last.
    pub(crate) end: usize,
}

/// So many segments, one after the other behind their count. What stands after them isn't asked.
fn segments_at<'a>(
    alloc: Global,
    count: u32,
    octets: &'a [u8],
    mdb: &Mdb,
) -> Result<ReadSegments<'a>, NotASegment>
    ensures sound { IfOk result (λ read. AllByRecursion IsSegment read.segments.items) }
    ensures count { IfOk result (λ read. length read.segments.items ≡ count) }
    ensures spelled { IfOk result (λ read.
        drop 4 octets.now ≡ flat_map segment_octets read.segments.items ++ drop read.end octets.now) }
    ensures starts { IfOk result (λ read. read.starts.items ≡ starts_from 4 read.segments.items) }
    ensures end { IfOk result (λ read. read.end ≡ 4 + length (flat_map segment_octets read.segments.items)) }
    ensures each { (segments : List ASegment) → AllByRecursion (IsKnownSegment mdb.now) segments →
        count ≡ length segments → drop 4 octets.now ≡ flat_map segment_octets segments →
        MatchResult result (λ read. read.segments.items ≡ segments) (λ e. e ≡ OutOfMemory) }
{
    let room = room_for(count as usize, octets, LEAST_SEGMENT);
    let mut segments = Vec::with_capacity(alloc, room)?;
    let mut starts = Vec::with_capacity(alloc, room)?;
    let mut at = COUNT_OCTETS;
    for _ in 0..count {
        let Ok(start) = u32::try_from(at) else {
            return Err(NotASegment::OutOfMemory);
        };
        let (segment, end) = known_segment_at(alloc, octets, at, mdb)?;
        segments.reserve(1)?;
        starts.push(start)?;
        segments.push_reserved(segment);
        at = end;
    }
    Ok(ReadSegments {
        segments,
        starts,
        end: at,
    })
}

/// The segments that octets count and spell. What stands after them isn't asked.
pub(crate) fn counted_segments<'a>(
    alloc: Global,
    octets: &'a [u8],
    mdb: &Mdb,
) -> Result<ReadSegments<'a>, NotASegment>
    ensures sound { IfOk result (λ read. AllByRecursion IsSegment read.segments.items) }
    ensures few { IfOk result (λ read. length read.segments.items < 2 ^ 32) }
    ensures whole { IfOk result (λ read. read.end ≡ length octets.now →
        octets.now ≡ counted w32 segment_octets read.segments.items) }
    ensures starts { IfOk result (λ read. read.starts.items ≡ starts_from 4 read.segments.items) }
    ensures end { IfOk result (λ read. read.end ≡ 4 + length (flat_map segment_octets read.segments.items)) }
    ensures each { (segments : List ASegment) → AllByRecursion (IsKnownSegment mdb.now) segments →
        length segments < 2 ^ 32 → octets.now ≡ counted w32 segment_octets segments →
        MatchResult result (λ read. read.segments.items ≡ segments) (λ e. e ≡ OutOfMemory) }
{
    match u32_at(octets) {
        Err(_) => Err(NotASegment::Malformed),
        Ok((count, _)) => segments_at(alloc, count, octets, mdb),
    }
}

/// Adds the keys of a segment with a number.
fn put_keys(places: &mut Vec<KeyPlace>, segment: u32, keys: &[Key]) -> Result<(), AllocError>
    ensures { OnOk result (places.new.items ≡ places.old.items ++ map (key_in segment) keys.now) }
{
    for key in keys {
        places.push(KeyPlace::new(*key, segment))?;
    }
    Ok(())
}

/// How many rows segments have.
fn count_rows(segments: &[SegmentOutline<'_>]) -> usize {
    let mut count: usize = 0;
    for segment in segments {
        count = count.saturating_add(usize::from(segment.rows()));
    }
    count
}

/// The keys of segments: 16 octets each, and those of one segment beside them while they are read.
pub(crate) fn keys_of(
    alloc: Global,
    segments: &[SegmentOutline<'_>],
) -> Result<Vec<KeyPlace>, AllocError>
    requires { length segments.now < 2 ^ 32 }
    ensures { IfOk result (λ places. places.items ≡ key_places 0 segments.now) }
{
    let mut places = Vec::with_capacity(alloc, count_rows(segments))?;
    for i in 0..segments.len() {
        let keys = segments[i].keys(alloc)?;
        put_keys(&mut places, i as u32, keys.as_slice())?;
    }
    Ok(places)
}
