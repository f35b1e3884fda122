//! Reads one column of a segment, and passes over the others by their lengths.

ghost use Rattle.std.specs.Prelude.{◌≡◌, ◌≤◌, ◌==◌, IfOk};
ghost use Rattle.std.specs.List.{position};
ghost use Rattle.octet_fields.specs.Answers.{Answers, Gives};
ghost use Rattle.segment_codec.specs.OneColumn.{column_at_place, column_end, column_in, column_of, columns_end};
ghost use Rattle.segment_codec.specs.Segment.{HasSegmentAt, most_rows};
ghost use Rattle.segment_codec.specs.declared.segment.Segment.{Segment};

use crate::key_column::keys_at;
use crate::parameters::counted_parameters_at;
use crate::raw_column::raw_column_at;
use crate::reading::row_count_at;
use crate::segment::{KeyList, RawColumn};
use octet_fields::{DecodeError, Short, octets_at, u8_at};
use std::alloc::{AllocError, Global};

/// One parameter's column of a segment, beside the keys of its rows.
#[derive(Debug, Drop)]
pub struct ParameterColumn {
    /// The key of each row, in rising order.
    pub keys: KeyList,
    /// The parameter's raw value in each row.
    pub values: RawColumn,
}

/// The octets after a raw column.
#[tactic(auto, unfolding(crate::specs::OneColumn::column_end))]
fn column_end(rows: u16, octets: &[u8]) -> Result<&[u8], Short>
    ensures { Answers (λ x. x.now) result (column_end rows octets.now) }
{
    let (form, rest) = u8_at(octets)?;
    let (_, rest) = octets_at(rest, 16)?;
    if form == 0 {
        return Ok(rest);
    }
    let (width, rest) = u8_at(rest)?;
    let (_, rest) = octets_at(rest, (usize::from(width) * usize::from(rows) + 7) / 8)?;
    Ok(rest)
}

/// The octets after so many raw columns.
pub(crate) fn columns_end(columns: usize, rows: u16, octets: &[u8]) -> Result<&[u8], Short>
    ensures { Answers (λ x. x.now) result (columns_end columns rows octets.now) }
{
    let mut rest = octets;
    for _ in 0..columns {
        rest = column_end(rows, rest)?;
    }
    Ok(rest)
}

/// The place of a parameter.
pub(crate) fn place_of(parameters: &[u16], parameter: u16) -> Option<usize>
    ensures { result ≡ position (λ p. p == parameter) parameters.now }
{
    parameters.iter().position(|p| *p == parameter)
}

/// The keys, and the raw column at a place.
fn column_at_place(
    alloc: Global,
    rows: u16,
    place: Option<usize>,
    octets: &[u8],
) -> Result<Option<ParameterColumn>, DecodeError>
    requires some { 1 ≤ rows }
    requires few { rows ≤ most_rows }
    ensures { Gives (λ x. x) result (column_at_place rows place octets.now) }
{
    let Some(place) = place else {
        return Ok(None);
    };
    let (keys, rest) = keys_at(alloc, rows, octets)?;
    let rest = columns_end(place, rows, rest)?;
    let (values, _) = raw_column_at(alloc, rows, rest)?;
    Ok(Some(ParameterColumn { keys, values }))
}

/// The keys and the raw column of a parameter in the segment that stands at the front.
#[tactic(auto, unfolding(crate::specs::OneColumn::column_of))]
fn column_of(
    alloc: Global,
    octets: &[u8],
    parameter: u16,
) -> Result<Option<ParameterColumn>, DecodeError>
    ensures { Gives (λ x. x) result (column_of parameter octets.now) }
{
    let (parameters, rest) = counted_parameters_at(alloc, octets)?;
    let (rows, rest) = row_count_at(rest)?;
    column_at_place(
        alloc,
        rows,
        place_of(parameters.as_slice(), parameter),
        rest,
    )
}

/// The keys and the raw column of a parameter in the segment whose spelling stands in octets from a place on, or
/// nothing where the segment hasn't the parameter. No other column is decoded.
pub fn read_column(
    alloc: Global,
    octets: &[u8],
    at: usize,
    parameter: u16,
) -> Result<Option<ParameterColumn>, AllocError>
    requires { (s : Segment) × HasSegmentAt octets.now at s }
    ensures { (s : Segment) → HasSegmentAt octets.now at s → IfOk result (λ c. c ≡ column_in parameter s) }
{
    let (_, front) = octets.split_at(at);
    match column_of(alloc, front, parameter) {
        Ok(column) => Ok(column),
        // a segment stands there, so nothing but memory can have been wanting
        Err(_) => Err(AllocError),
    }
}
