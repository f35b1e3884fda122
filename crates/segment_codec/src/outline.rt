//! Reads the outline of a segment: what tells whether it may stand in a set, in little more room than its octets take.

ghost use Rattle.std.specs.Prelude.{◌≡◌, ◌+◌, ◌≤◌, length, map, IfErr, IfOk, IfSome};
ghost use Rattle.octet_fields.specs.Answers.{Gives};
ghost use Rattle.octet_fields.specs.Reading.{times_at};
ghost use Rattle.octet_fields.specs.declared.fault.DecodeError.TheVariants.{OutOfMemory};
ghost use Rattle.segment_codec.specs.Outline.{first_of, keys_of, last_of, outline_at, range_at, range_of};
ghost use Rattle.segment_codec.specs.Segment.{HasSegmentAt, most_rows, segment_octets};
ghost use Rattle.segment_codec.specs.declared.segment.Segment.{Segment as ASegment};

use crate::column_range::{ColumnRange, range_at};
use crate::fault::NotASegment;
use crate::key_column::{KeyEnds, key_ends, keys_at};
use crate::parameters::{counted_parameters_at, parameters_at};
use crate::reading::row_count_at;
use crate::segment::{KeyList, ParameterList};
use arch_types::key::Key;
use item_list::Items;
use octet_fields::{DecodeError, room_for};
use std::alloc::{AllocError, Global};
use std::marker::Model;

/// The fewest octets of a raw column: its form, and a value.
const LEAST_COLUMN: usize = 17;

/// How far each column's values reach.
pub type RangeList = Items<ColumnRange>;

/// What is kept of a segment.
#[derive(Debug, Drop)]
struct OutlineParts {
    parameters: ParameterList,
    /// How many rows it has.
    rows: u16,
    /// The keys of its first row and its last.
    ends: KeyEnds,
    /// How far the values of each parameter reach.
    ranges: RangeList,
}

/// A segment whose keys and values stay where they are spelled. Contracts see the segment.
#[derive(Debug, Drop)]
pub struct SegmentOutline<'a> {
    parts: OutlineParts,
    /// The key of each row, where these take little room beside its spelling.
    keys: Option<KeyList>,
    /// Its spelling, and what stands behind it.
    octets: &'a [u8],
}

impl<'a> Model for SegmentOutline<'a> {
    ghost use Rattle.segment_codec.specs.Outline.{IsOutlineOf, front_segment};
    ghost use Rattle.segment_codec.specs.declared.segment.Segment.{Segment};

    ghost Value = { Segment };

    ghost view = { λ o. front_segment o.octets.now };

    ghost invariant = { λ o. IsOutlineOf o.parts o.keys o.octets.now };
}

impl<'a> SegmentOutline<'a> {
    pub fn parameters(&self) -> &[u16]
        ensures { result.now ≡ self.now.parameters }
    {
        self.parts.parameters.as_slice()
    }

    /// How many rows it has.
    pub fn rows(&self) -> u16
        ensures { result ≡ length self.now.keys }
    {
        self.parts.rows
    }

    /// The key of its first row.
    pub fn first(&self) -> Key
        ensures { result ≡ first_of self.now.keys }
    {
        self.parts.ends.first
    }

    /// The key of its last row.
    pub fn last(&self) -> Key
        ensures { result ≡ last_of self.now.keys }
    {
        self.parts.ends.last
    }

    /// The key of each row, read once more where they weren't kept.
    pub fn keys(&self, alloc: Global) -> Result<KeyList, AllocError>
        ensures { IfOk result (λ keys. keys ≡ self.now.keys) }
    {
        if let Some(keys) = &self.keys {
            return keys.copy(alloc);
        }
        match front_keys(alloc, self.octets) {
            Ok(keys) => Ok(keys),
            // a segment stands there, so nothing but memory can have been wanting
            Err(_) => Err(AllocError),
        }
    }

    /// How far the values of each parameter reach.
    pub fn ranges(&self) -> &[ColumnRange]
        ensures { result.now ≡ map range_of self.now.columns }
    {
        self.parts.ranges.as_slice()
    }
}

/// The keys of the segment that stands at the front.
#[tactic(auto, unfolding(crate::specs::Outline::keys_of))]
fn front_keys(alloc: Global, octets: &[u8]) -> Result<KeyList, DecodeError>
    ensures { Gives (λ x. x) result (keys_of octets.now) }
{
    let (_, rest) = counted_parameters_at(alloc, octets)?;
    let (rows, rest) = row_count_at(rest)?;
    let (keys, _) = keys_at(alloc, rows, rest)?;
    Ok(keys)
}

/// The ranges of so many raw columns, and the octets after them.
fn ranges_at(
    alloc: Global,
    count: usize,
    rows: u16,
    octets: &[u8],
) -> Result<(RangeList, &[u8]), DecodeError>
    requires some { 1 ≤ rows }
    requires few { rows ≤ most_rows }
    ensures { Gives (λ x. (x.0, x.1.now)) result (times_at (range_at rows) count octets.now) }
{
    let room = room_for(count, octets, LEAST_COLUMN);
    let mut ranges = RangeList::from_vec(Vec::with_capacity(alloc, room)?);
    let mut rest = octets;
    for _ in 0..count {
        let (range, after) = range_at(rows, rest)?;
        ranges.push(range)?;
        rest = after;
    }
    Ok((ranges, rest))
}

/// The outline of the segment at the front, its keys, and the octets after it.
#[tactic(auto, unfolding(crate::specs::Outline::outline_at))]
fn outline_at(alloc: Global, octets: &[u8]) -> Result<(OutlineParts, KeyList, &[u8]), DecodeError>
    ensures { Gives (λ x. ((x.0, x.1), x.2.now)) result (outline_at octets.now) }
{
    let (parameters, rest) = parameters_at(alloc, octets)?;
    let (rows, rest) = row_count_at(rest)?;
    let (keys, rest) = keys_at(alloc, rows, rest)?;
    let ends = key_ends(keys.as_slice());
    let (ranges, rest) = ranges_at(alloc, parameters.len(), rows, rest)?;
    let parts = OutlineParts {
        parameters,
        rows,
        ends,
        ranges,
    };
    Ok((parts, keys, rest))
}

/// Keys, where each took four octets or more of a spelling: kept so, they take at most four times its room.
fn kept_keys(keys: KeyList, octet_len: usize) -> Option<KeyList>
    ensures { IfSome result (λ kept. kept ≡ keys) }
{
    if keys.len() <= octet_len / 4 {
        return Some(keys);
    }
    None
}

/// The outline of the segment whose spelling stands in octets from a place on, and the place where it ends.
///
/// Any octets may be given, and any place, also past their end: what isn't a spelling to the last bit is Malformed.
/// Room is made for its parameters and for two values a column, each of which takes octets, and for its keys, which are
/// kept only where its rows took four octets each.
pub fn read_outline(
    alloc: Global,
    octets: &[u8],
    at: usize,
) -> Result<(SegmentOutline<'_>, usize), NotASegment>
    ensures found { IfOk result (λ x. HasSegmentAt octets.now at x.0) }
    ensures end { IfOk result (λ x. x.1 ≡ at + length (segment_octets x.0)) }
    ensures within { IfOk result (λ x. x.1 ≤ length octets.now) }
    ensures same { (s : ASegment) → HasSegmentAt octets.now at s → IfOk result (λ x. x.0 ≡ s) }
    ensures memory { (s : ASegment) → HasSegmentAt octets.now at s → IfErr result (λ e. e ≡ OutOfMemory) }
{
    if octets.len() < at {
        return Err(NotASegment::Malformed);
    }
    let (_, front) = octets.split_at(at);
    let (parts, keys, rest) = outline_at(alloc, front)?;
    let end = octets.len() - rest.len();
    let outline = SegmentOutline {
        parts,
        keys: kept_keys(keys, end - at),
        octets: front,
    };
    Ok((outline, end))
}
