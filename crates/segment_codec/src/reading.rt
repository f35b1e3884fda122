//! Reads a segment.

ghost use Rattle.std.specs.Prelude.{◌≡◌, ◌+◌, ◌≤◌, length, IfOk, IfErr};
ghost use Rattle.octet_fields.specs.Answers.{Gives};
ghost use Rattle.octet_fields.specs.Reading.{times_at};
ghost use Rattle.octet_fields.specs.declared.fault.DecodeError.TheVariants.{OutOfMemory};
ghost use Rattle.segment_codec.specs.declared.segment.Segment.{Segment as ASegment};
ghost use Rattle.segment_codec.specs.RawColumn.{raw_column_at};
ghost use Rattle.segment_codec.specs.Segment.{HasSegmentAt, most_rows, row_count_at, segment_at, segment_octets};

use crate::fault::NotASegment;
use crate::key_column::keys_at;
use crate::parameters::parameters_at;
use crate::raw_column::raw_column_at;
use crate::segment::{ColumnList, MOST_ROWS, Segment};
use octet_fields::{DecodeError, room_for, u16_at};
use std::alloc::Global;

/// The fewest octets of a raw column: its form, and a value.
const LEAST_COLUMN: usize = 17;

/// The number of rows, and the octets after it.
#[tactic(auto, unfolding(crate::specs::Segment::row_count_at))]
pub(crate) fn row_count_at(octets: &[u8]) -> Result<(u16, &[u8]), DecodeError>
    ensures gives { Gives (λ x. (x.0, x.1.now)) result (row_count_at octets.now) }
    ensures some { IfOk result (λ x. 1 ≤ x.0) }
    ensures few { IfOk result (λ x. x.0 ≤ most_rows) }
{
    let (rows, rest) = u16_at(octets)?;
    if rows < 1 || rows > MOST_ROWS {
        return Err(DecodeError::Malformed);
    }
    Ok((rows, rest))
}

/// So many raw columns, and the octets after them.
fn columns_at(
    alloc: Global,
    count: usize,
    rows: u16,
    octets: &[u8],
) -> Result<(ColumnList, &[u8]), DecodeError>
    requires { rows ≤ most_rows }
    ensures { Gives (λ x. (x.0, x.1.now)) result (times_at (raw_column_at rows) count octets.now) }
{
    let room = room_for(count, octets, LEAST_COLUMN);
    let mut columns = ColumnList::from_vec(Vec::with_capacity(alloc, room)?);
    let mut rest = octets;
    for _ in 0..count {
        let (column, after) = raw_column_at(alloc, rows, rest)?;
        columns.push(column)?;
        rest = after;
    }
    Ok((columns, rest))
}

/// The segment at the front, and the octets after it.
#[tactic(auto, unfolding(crate::specs::Segment::segment_at))]
fn segment_at(alloc: Global, octets: &[u8]) -> Result<(Segment, &[u8]), DecodeError>
    ensures { Gives (λ x. (x.0, x.1.now)) result (segment_at octets.now) }
{
    let (parameters, rest) = parameters_at(alloc, octets)?;
    let (rows, rest) = row_count_at(rest)?;
    let (keys, rest) = keys_at(alloc, rows, rest)?;
    let (columns, rest) = columns_at(alloc, parameters.len(), rows, rest)?;
    let segment = Segment {
        parameters,
        keys,
        columns,
    };
    Ok((segment, rest))
}

/// The segment whose spelling stands in octets from a place on, and the place where it ends.
///
/// Any octets may be given, and any place, also past their end: what isn't a spelling to the last bit is Malformed.
/// Room is made by what the octets spell: a column of equal values spells up to 4,096 of them in 17 octets.
pub fn read_segment(
    alloc: Global,
    octets: &[u8],
    at: usize,
) -> Result<(Segment, usize), NotASegment>
    ensures found { IfOk result (λ x. HasSegmentAt octets.now at x.0) }
    ensures end { IfOk result (λ x. x.1 ≡ at + length (segment_octets x.0)) }
    ensures within { IfOk result (λ x. x.1 ≤ length octets.now) }
    ensures same { (s : ASegment) → HasSegmentAt octets.now at s → IfOk result (λ x. x.0 ≡ s) }
    ensures memory { (s : ASegment) → HasSegmentAt octets.now at s → IfErr result (λ e. e ≡ OutOfMemory) }
{
    if octets.len() < at {
        return Err(NotASegment::Malformed);
    }
    let (_, front) = octets.split_at(at);
    let (segment, rest) = segment_at(alloc, front)?;
    Ok((segment, octets.len() - rest.len()))
}
