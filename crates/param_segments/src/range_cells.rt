//! The cells of a parameter in a range of times, in the segments of a set. Segments before the range are passed over.
//! With a limit they are read in the range's direction, and of a group no more values are read than the limit asks.

ghost use Rattle.std.specs.Prelude.{◌≡◌, ◌<◌, ◌<ℤ◌, ◌++◌, List, flat_map, length, true, Some, IfOk, OnOk};
ghost use Rattle.std.specs.List.{AllByRecursion};
ghost use Rattle.arch_types.specs.Directions.{in_direction, truncated};
ghost use Rattle.param_segments.specs.CellRange.{GivesFirst, IsAskedOf, as_range_asks, raw_cells_in_range, segment_of_step, segment_cells_asked};
ghost use Rattle.param_segments.specs.Groups.{set_of};
ghost use Rattle.param_segments.specs.Octets.{IsSpelledSet, rows_in_octets};
ghost use Rattle.param_segments.specs.RowPlaces.{numbered_segment};
ghost use Rattle.segment_codec.specs.Segment.{HasSegmentAt};
ghost use Rattle.segment_codec.specs.SegmentHead.{IsHeadOf};
ghost use Rattle.segment_codec.specs.declared.segment.Segment.{Segment};

use crate::cell_range::CellRange;
use crate::cells::{are_sorted, put_column};
use crate::raw_cell::RawCell;
use arch_types::direction::Direction;
use segment_codec::{RowRange, SegmentHead, read_column_in_range, read_head};
use std::alloc::{AllocError, Global};

/// Adds the raw cells that a range asks of a parameter in the segment that stands in octets from a place on.
fn put_range_cells(
    alloc: Global,
    cells: &mut Vec<RawCell>,
    octets: &[u8],
    at: usize,
    parameter: u16,
    range: CellRange,
) -> Result<(), AllocError>
    requires { (s : Segment) × HasSegmentAt octets.now at s }
    ensures { (s : Segment) → HasSegmentAt octets.now at s → OnOk result
        (cells.new.items ≡ cells.old.items ++ segment_cells_asked parameter range s) }
{
    let rows = RowRange {
        from: range.from,
        to: range.to,
        direction: range.direction,
        limit: range.limit,
    };
    match read_column_in_range(alloc, octets, at, parameter, rows)? {
        None => Ok(()),
        Some(column) => put_column(cells, column.keys.as_slice(), column.values.as_slice()),
    }
}

/// Whether a segment lies before a time, as the next one shows: it has the same parameters and begins before that.
fn ends_before(
    alloc: Global,
    octets: &[u8],
    starts: &[u32],
    number: usize,
    time: i64,
) -> Result<bool, AllocError>
    requires spelled { IsSpelledSet octets.now starts.now }
    requires within { number < length starts.now }
    ensures { IfOk result (λ before. before ≡ true → AllByRecursion (λ key. key.time <ℤ time)
        (numbered_segment (set_of (rows_in_octets octets.now)) number).keys) }
{
    let next = number + 1;
    if next >= starts.len() {
        return Ok(false);
    }
    let behind = read_head(alloc, octets, starts[next] as usize)?;
    if behind.first.time >= time {
        return Ok(false);
    }
    let own = read_head(alloc, octets, starts[number] as usize)?;
    Ok(own.parameters.as_slice() == behind.parameters.as_slice())
}

/// Adds those in the segment with a number. One before the range, or of which none is asked, isn't read.
fn put_numbered_cells(
    alloc: Global,
    cells: &mut Vec<RawCell>,
    octets: &[u8],
    starts: &[u32],
    number: usize,
    parameter: u16,
    range: CellRange,
) -> Result<(), AllocError>
    requires spelled { IsSpelledSet octets.now starts.now }
    requires within { number < length starts.now }
    ensures { OnOk result (cells.new.items ≡ cells.old.items ++ segment_cells_asked parameter range
        (numbered_segment (set_of (rows_in_octets octets.now)) number)) }
{
    if let Some(0) = range.limit {
        return Ok(());
    }
    if ends_before(alloc, octets, starts, number, range.from)? {
        return Ok(());
    }
    put_range_cells(
        alloc,
        cells,
        octets,
        starts[number] as usize,
        parameter,
        range,
    )
}

/// The raw cells of a parameter that a range asks of each segment, one segment after the other.
fn gathered_range_cells(
    alloc: Global,
    octets: &[u8],
    starts: &[u32],
    parameter: u16,
    range: CellRange,
) -> Result<Vec<RawCell>, AllocError>
    requires { IsSpelledSet octets.now starts.now }
    ensures { IfOk result (λ cells. cells.items ≡ flat_map (segment_cells_asked parameter range)
        (set_of (rows_in_octets octets.now))) }
{
    let mut cells = Vec::new(alloc);
    for number in 0..starts.len() {
        put_numbered_cells(alloc, &mut cells, octets, starts, number, parameter, range)?;
    }
    Ok(cells)
}

/// The number of the segment so many steps into a set in a direction.
fn number_at(direction: Direction, segments: usize, step: usize) -> usize
    requires { step < segments }
    ensures within { result < segments }
    ensures at { (all : List Segment) → length all ≡ segments →
        numbered_segment all result ≡ segment_of_step direction all step }
{
    match direction {
        Direction::Ascending => step,
        Direction::Descending => segments - 1 - step,
    }
}

/// The head of the segment so many steps into a set in a direction.
fn head_at(
    alloc: Global,
    octets: &[u8],
    starts: &[u32],
    direction: Direction,
    step: usize,
) -> Result<SegmentHead, AllocError>
    requires spelled { IsSpelledSet octets.now starts.now }
    requires within { step < length starts.now }
    ensures { IfOk result (IsHeadOf (segment_of_step direction (set_of (rows_in_octets octets.now)) step)) }
{
    let number = number_at(direction, starts.len(), step);
    read_head(alloc, octets, starts[number] as usize)
}

/// How many cells that segment is asked for, where so many are still wanted of the group of the one before it.
fn asked_at(
    alloc: Global,
    octets: &[u8],
    starts: &[u32],
    direction: Direction,
    step: usize,
    wanted: u64,
    limit: u64,
) -> Result<u64, AllocError>
    requires spelled { IsSpelledSet octets.now starts.now }
    requires within { step < length starts.now }
    ensures { IfOk result (λ asked.
        IsAskedOf direction (set_of (rows_in_octets octets.now)) step limit wanted asked) }
{
    if step == 0 || wanted == limit {
        return Ok(limit);
    }
    let own = head_at(alloc, octets, starts, direction, step)?;
    let last = head_at(alloc, octets, starts, direction, step - 1)?;
    if last.parameters.as_slice() == own.parameters.as_slice() {
        Ok(wanted)
    } else {
        Ok(limit)
    }
}

/// Of each group the first raw cells of a parameter in a range of times, in its direction, up to a limit.
fn first_of_groups(
    alloc: Global,
    octets: &[u8],
    starts: &[u32],
    parameter: u16,
    range: CellRange,
    limit: u64,
) -> Result<Vec<RawCell>, AllocError>
    requires { IsSpelledSet octets.now starts.now }
    ensures { IfOk result (λ cells. GivesFirst range.direction (Some limit) cells.items
        (raw_cells_in_range parameter range.from range.to (rows_in_octets octets.now))) }
{
    let mut cells = Vec::new(alloc);
    let mut wanted = limit;
    for step in 0..starts.len() {
        let asked = asked_at(alloc, octets, starts, range.direction, step, wanted, limit)?;
        let number = number_at(range.direction, starts.len(), step);
        let part = CellRange {
            from: range.from,
            to: range.to,
            direction: range.direction,
            limit: Some(asked),
        };
        let had = cells.len();
        put_numbered_cells(alloc, &mut cells, octets, starts, number, parameter, part)?;
        wanted = asked - (cells.len() - had) as u64;
    }
    Ok(cells)
}

/// Enough raw cells of a parameter for what a range asks.
fn enough_cells(
    alloc: Global,
    octets: &[u8],
    starts: &[u32],
    parameter: u16,
    range: CellRange,
) -> Result<Vec<RawCell>, AllocError>
    requires { IsSpelledSet octets.now starts.now }
    ensures { IfOk result (λ cells. GivesFirst range.direction range.limit cells.items
        (raw_cells_in_range parameter range.from range.to (rows_in_octets octets.now))) }
{
    match range.limit {
        None => gathered_range_cells(alloc, octets, starts, parameter, range),
        Some(limit) => first_of_groups(alloc, octets, starts, parameter, range, limit),
    }
}

/// The same in the order of their keys: those that the range asks of all stand among them, and before the others.
fn sorted_range_cells(
    alloc: Global,
    octets: &[u8],
    starts: &[u32],
    parameter: u16,
    range: CellRange,
) -> Result<Vec<RawCell>, AllocError>
    requires { IsSpelledSet octets.now starts.now }
    ensures { IfOk result (λ cells. as_range_asks range cells.items ≡ as_range_asks range
        (raw_cells_in_range parameter range.from range.to (rows_in_octets octets.now))) }
{
    let mut cells = enough_cells(alloc, octets, starts, parameter, range)?;
    if are_sorted(&cells) {
        return Ok(cells);
    }
    cells.sort()?;
    Ok(cells)
}

/// Puts cells in a direction.
fn put_in_direction(cells: &mut Vec<RawCell>, direction: Direction)
    ensures { cells.new.items ≡ in_direction direction cells.old.items }
{
    match direction {
        Direction::Ascending => {}
        Direction::Descending => cells.as_mut_slice().reverse(),
    }
}

/// Leaves the first so many cells, or all.
fn keep_first(cells: &mut Vec<RawCell>, limit: Option<u64>)
    ensures { cells.new.items ≡ truncated limit cells.old.items }
{
    match limit {
        None => {}
        Some(limit) => cells.truncate(limit as usize),
    }
}

/// The raw cells of a parameter that a range asks.
pub(crate) fn range_cells(
    alloc: Global,
    octets: &[u8],
    starts: &[u32],
    parameter: u16,
    range: CellRange,
) -> Result<Vec<RawCell>, AllocError>
    requires { IsSpelledSet octets.now starts.now }
    ensures { IfOk result (λ cells. cells.items ≡ as_range_asks range
        (raw_cells_in_range parameter range.from range.to (rows_in_octets octets.now))) }
{
    let mut cells = sorted_range_cells(alloc, octets, starts, parameter, range)?;
    put_in_direction(&mut cells, range.direction);
    keep_first(&mut cells, range.limit);
    Ok(cells)
}
